//! The top call: it takes the words of a command line, a disk and two sinks, and answers the status.
//!
//! A program makes the disk and the sinks, calls [`run`] and ends with the status that it answers. The contract of
//! [`run`] is what the whole program promises; each command has a module of its own below it.
#![tactic(auto)]

mod command;
mod converting;
mod ending;
mod format;
mod inspect;
mod laws;
mod list;
mod print;
mod read;
mod recovering;
mod reiser;
mod rolling_back;
mod summary;
mod texts;
mod top;
mod trying;

pub use command::{Command, CommandLine, read_words};
pub use ending::Ending;
pub use laws::{
    crashes_at_any_moment, inspect_tells_space, inspect_texts_are_one, list_texts_are_one,
    recovers_after_crashes, rollback_undoes_convert,
};
pub use summary::Summary;
pub use top::run;
