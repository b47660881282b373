//! Tests of what is said to a person: of words that are no command, of space that does not suffice, and of how texts are set.
//!
//! The crate has no code of its own: the calls that it tests are public ones of the crates below.
#![tactic(auto)]

#[cfg(test)]
mod paragraph;
#[cfg(test)]
mod question;
#[cfg(test)]
mod recount;
#[cfg(test)]
mod shell;
#[cfg(test)]
mod space;
#[cfg(test)]
mod wanted;
#[cfg(test)]
mod wrong_words;
