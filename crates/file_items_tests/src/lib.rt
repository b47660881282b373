//! Tests of the pieces of small volumes, and of the items that are made of them. Both stand beside the checksums of those
//! that an independent program writes.
//!
//! The crate has no code of its own: the calls that it tests are public ones of the crates below.
#![tactic(auto)]

#[cfg(test)]
mod pieces;
#[cfg(test)]
mod volume_items;
