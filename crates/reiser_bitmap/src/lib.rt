//! The bitmap of a ReiserFS volume: which blocks are in use, and which runs of units of 1 MiB are free.
//!
//! A caller loads the [`Bitmap`] of a volume whose superblock it has read, lets [`Bitmap::system_used`] see that the
//! volume keeps its own blocks, and asks for blocks, units and [`Runs`] of free units. [`Bitmap::new`] and
//! [`Bitmap::insert`] make sets of blocks of one's own.
#![tactic(auto)]

mod bitmap;
mod count;
mod laws;
mod layout;
mod load;
mod next;
mod runs;
mod system;
mod units;

pub use bitmap::Bitmap;
pub use laws::{
    bitmap_blocks_decide, free_runs_are_maximal, free_units_pass, system_blocks_pass,
    used_blocks_are_had,
};
pub use layout::{bitmap_block, is_system};
pub use refusals::{
    Access, Block, BlockNo, BlockSource, BtrAnswer, BtrRefusal, BtrRule, Cached, CopyList, Disk,
    Fault, Format, Ids, Memory, Room, Rule, Sink, VolAnswer, VolumeRefusal, format_of, has_magic,
    is_reserved, usable_end, vol_block,
};
pub use reiserfs_format;
pub use runs::{Run, Runs};
