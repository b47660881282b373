//! Tests of what a conversion writes trees with: Btrfs trees that are built, written and read back by a walk; plans of space,
//! the chunks that they become, and the items of the trees that describe space.
//!
//! The crate has no code of its own: the calls that it tests are public ones of the crates below.
#![tactic(auto)]

#[cfg(test)]
mod building;
#[cfg(test)]
mod lists;
#[cfg(test)]
mod own_nodes;
#[cfg(test)]
mod planning;
#[cfg(test)]
mod streams;
#[cfg(test)]
mod writing;
