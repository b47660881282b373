//! The free space tree: which bytes of each block group no extent takes, as the Btrfs on-disk format documentation and
//! Linux (fs/btrfs/free-space-tree.c) have it.
//!
//! [`FreeStream`] gives the items of the tree one after the other, from the block groups and the ranges that extents
//! take. It holds its place and no list; of a group it goes over the ranges twice, since the group's own item tells how
//! many runs come. For Linux more is right: runs that bitmaps tell, and ranges without a block group (`TellsGroup`).
//! The items of the stream are right so (`free_items_tell`, `free_space_is_told`).
#![tactic(auto)]

mod info;
mod laws;
mod range;
mod rest;
mod stream;
#[cfg(test)]
mod tests;

pub use info::FreeInfo;
pub use laws::{free_infos_read_back, free_items_fit, free_items_tell, free_space_is_told};
pub use range::{Range, UsedRanges};
pub use stream::FreeStream;
