//! How far a command is, by the calls of its disk alone, and the line of a terminal that tells of it.
//!
//! A [`Watch`] is told of each read, write and sync, and of what the disk is opened for, its [`Task`]. It makes a [`Stage`] of
//! that, by what the superblock tells of the volume ([`VolumeUse`]), by the nodes of its tree that were read ([`Census`]), and by
//! how fast blocks were moved of late ([`Pace`]). [`stage_text`] is the text of a stage, and the [`StatusLine`] shows it.
//!
//! All of it serves a person who waits, and nothing else: it writes to the terminal alone.
#![tactic(auto)]

mod census;
mod pace;
mod stage_line;
mod status_line;
mod steps;
mod volume_use;
mod watch;

pub use census::{Census, Leaf, Round};
pub use outside::{Block, BlockNo};
pub use pace::{Moment, Pace};
pub use stage_line::stage_text;
pub use status_line::{StatusLine, columns_of, shown};
pub use steps::{Stage, Step, Task};
pub use volume_use::VolumeUse;
pub use watch::Watch;
