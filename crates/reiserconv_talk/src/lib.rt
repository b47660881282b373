//! What a person at a terminal is told beside the lines of a run: before it writes, what its lines mean, and what to do; and what
//! is asked before a rollback.
//!
//! [`Talk`] is one for each run; [`tell_start`] stands in its place where the program can't start. [`Question`] asks. A [`Recount`]
//! holds what a further look at the volume counted, where the space does not suffice. Nothing here opens a volume.
#![tactic(auto)]

mod advice;
mod missing;
mod notices;
mod paragraph;
mod question;
mod recount;
mod sentences;
mod space;
mod talk;

pub use missing::Missing;
pub use paragraph::Paragraph;
pub use question::{Question, is_yes};
pub use recount::{Counted, Recount, changes};
pub use reiserconv_words;
pub use space::Space;
pub use talk::{Ended, How, Seen, Talk, tell_start};
