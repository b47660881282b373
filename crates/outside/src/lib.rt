//! What the program sees of the world outside: sources of blocks, disks that may crash, and sinks of text.
//!
//! A caller is generic over [`BlockSource`] where it reads, over [`Disk`] where it opens or writes, and over
//! [`Sink`] where it prints. What a disk was asked to do is a list of calls that only contracts see, and what a
//! crash may leave is a definition over that list; [`crash_leaves_old_or_written`] and its neighbours are the laws
//! that callers need of it.
#![tactic(auto)]

mod cached;
mod disk;
mod fault;
mod laws;
mod list;
mod sink;
mod source;

pub use cached::{Cached, Room};
pub use disk::{Access, Disk};
pub use fault::{Fault, Memory};
pub use laws::{
    crash_leaves_old_or_written, crash_leaves_settled, crash_may_leave_whole,
    crash_splits_at_a_moment,
};
pub use list::CopyList;
pub use sink::Sink;
pub use source::BlockSource;
pub use vol_block;
pub use vol_block::{
    Block, BlockNo, Field, Format, Ids, array_at, btrfs_format, format_of, has_magic,
    has_reiser_magic, is_reserved, put_fields, put_u64, u16_at, u32_at, u64_at, usable_end,
};

#[cfg(test)]
mod tests;
