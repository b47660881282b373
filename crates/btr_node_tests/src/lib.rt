//! Tests of the formats: hashes, keys, nodes, item bodies and superblocks of both file systems, beside bytes that stock tools and Linux wrote.
//!
//! The crate has no code of its own: the calls that it tests are public ones of the crates below.
#![tactic(auto)]

#[cfg(test)]
mod bytes;
#[cfg(test)]
mod hashes;
#[cfg(test)]
mod keys;
#[cfg(test)]
mod nodes;
#[cfg(test)]
mod reiser_bodies;
#[cfg(test)]
mod reiser_nodes;
#[cfg(test)]
mod samples;
#[cfg(test)]
mod space_records;
#[cfg(test)]
mod superblocks;
