//! Tests of the edge to the machine: disks over files, sinks over streams, the look-up of what is in use, and what is told of
//! how far a command is.
//!
//! The crate has no code of its own: the calls that it tests are public ones of the crates below.
#![tactic(auto)]

#[cfg(test)]
mod census;
#[cfg(test)]
mod changes;
#[cfg(test)]
mod disks;
#[cfg(test)]
mod folder;
#[cfg(test)]
mod generations;
#[cfg(test)]
mod in_use;
#[cfg(test)]
mod signatures;
#[cfg(test)]
mod sinks;
#[cfg(test)]
mod stages;
#[cfg(test)]
mod tables;
#[cfg(test)]
mod uses;
#[cfg(test)]
mod watches;
