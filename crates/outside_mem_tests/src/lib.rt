//! Tests of what the memory disk says that a crash leaves of blocks that it tears apart.
//!
//! The crate has no code of its own: the calls that it tests are public ones of the crates below.
#![tactic(auto)]

#[cfg(test)]
mod torn;
