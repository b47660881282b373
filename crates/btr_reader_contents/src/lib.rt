//! The contents of the files and symlinks of a Btrfs file tree: the mark of each file, the target of each symlink.
//!
//! [`Contents::read`] walks the tree once. As the keys ascend, the extents of an inode come one after the other, so that
//! one file is in hand at a time; what is kept of each is small.
//!
//! The extents of one inode go, in their order, to an [`ExtentMarker`], which makes the mark of a file or gathers the
//! target of a symlink. Each is checked by [`check_extent`] behind those before.
#![tactic(auto)]

mod adding;
mod blocks;
mod content;
mod contents;
mod extents;
mod gathering;
mod hand;
mod marker;
mod marking;
mod reading;
mod target;
mod wanted;

pub use contents::Contents;
pub use extents::{Reach, check_extent, covered_by, extent_length, is_hole};
pub use marker::ExtentMarker;
pub use wanted::{Wanted, wanted_inode};
