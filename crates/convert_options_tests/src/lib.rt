//! Tests of words: the options of a command line, and the lines and statuses of answers.
//!
//! The crate has no code of its own: the calls that it tests are public ones of the crates below.
#![tactic(auto)]

#[cfg(test)]
mod answers;
#[cfg(test)]
mod options;
