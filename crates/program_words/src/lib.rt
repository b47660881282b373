//! Words of a command line, and the lines and statuses that programs of this repository answer with.
//!
//! A program asks [`is_path`], [`number_of`] and [`plain_number`] what a word is. What was not done is an `Answer` of `outside`:
//! [`write_answer`] writes its line, and [`answer_status`] is its status.
#![tactic(auto)]

mod answer_line;
mod words;

pub use answer_line::{answer_status, write_answer};
pub use command_answers::{Answer, VolumeRefusal};
pub use words::{is_path, number_of, plain_number};
