//! What the words of a command line ask for, as far as a person is told of it, and what is wrong with words that are no command.
//!
//! [`Asked`] is the command and its path, [`Wanted`] the options behind it and the same command with one of them changed. [`find`] is
//! the sentence on wrong words. Nothing here decides what the program does: that is the top call's reading of the same words.
#![tactic(auto)]

mod asked;
mod finding;
mod foreign;
mod nearest;
mod options;
mod shell;
mod wanted;
mod wrong_words;

pub use asked::{Asked, Verb};
pub use finding::Finding;
pub use options::Choice;
pub use shell::quoted;
pub use wanted::{Change, Wanted};
pub use wrong_words::find;
