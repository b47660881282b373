//! Tests of small ReiserFS volumes: volumes in memory that are opened, read and refused, and sample volumes beside the checksums of those
//! that another program made.
//!
//! The crate has no code of its own: the calls that it tests are public ones of the crates below.
#![tactic(auto)]

#[cfg(test)]
mod making;
#[cfg(test)]
mod samples;
#[cfg(test)]
mod volumes;
