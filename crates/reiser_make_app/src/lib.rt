//! The top call of the program that makes sample volumes: it takes the words of a command line, a disk and a sink, and
//! answers the status.
//!
//! A program makes the disk and the sink, calls [`run`] and ends with the status that it answers. The contract of [`run`]
//! is what the whole program promises.
#![tactic(auto)]

mod make_ending;
mod order;
mod top;
mod words;

pub use make_ending::MakeEnding;
pub use order::Order;
pub use top::run;
pub use words::read_words;
