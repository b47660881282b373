//! The superblock of Btrfs: reading it with all its rules, writing it, and its copies at other places.
//!
//! A caller reads block 16 by [`Super::read`], which gives the superblock or the first rule that fails, writes one by
//! [`Super::encode`], and the copies of a block by [`mirror`]. Nothing here allocates.
#![tactic(auto)]

mod laws;
mod read;
mod sums;
mod superblock;

pub use btr_space_items::btrfs_format;
pub use laws::{mirrors_read, supers_read_back};
pub use sums::{csum_type, sum_kind};
pub use superblock::{Super, mirror};
