//! Tests of the way back: the saved image of a small disk, the switch whose power fails behind one of its writes,
//! recoveries of small volumes, and trials on small disks in memory.
//!
//! The crate has no code of its own: the calls that it tests are public ones of the crates below.
#![tactic(auto)]

#[cfg(test)]
mod disks;
#[cfg(test)]
mod images;
#[cfg(test)]
mod recoveries;
#[cfg(test)]
mod switching;
#[cfg(test)]
mod trials;
