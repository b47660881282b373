//! Block 16, as it is turned from a superblock of ReiserFS to one of Btrfs and back, on devices that write sectors of 512 bytes.
//!
//! A crash may tear a block apart: some of its sectors are as they were, others as they were to be. Both formats have the fields that say what a
//! volume is in the first sector. So block 16 is turned in three writes, each of which is on the disk before the next begins, and each of which
//! changes the first sector alone, or others while the first is that of ReiserFS. What these others then hold is not lost: a mark in the first
//! sector names the block where a copy of the old superblock lies, and [`put_back`] makes block 16 that copy again.
//!
//! [`to_btrfs`] and [`to_reiser`] turn block 16, and [`put_back`] completes what a crash cut off.
#![tactic(auto)]

mod back;
mod laws;
mod mark;
mod steps;
mod turn;

pub use back::put_back;
pub use laws::{half_turned_is_put_back, put_back_keeps};
pub use outside::{Block, BlockNo, BlockSource, Disk, Fault, vol_block};
pub use turn::{to_btrfs, to_reiser};
