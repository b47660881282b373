//! Small volumes of both formats for tests, on a disk in memory.
//!
//! Of Btrfs a test says by a [`Sample`] what its volume has that is not as in [`Sample::PLAIN`], and gets the disk from
//! [`Sample::disk`].
//!
//! Of ReiserFS a test makes the leaf that is the tree of its volume, of a list of [`Thing`]s by [`leaf_of`] or item by
//! item with a [`Leaf`], and gets the disk from [`with_leaf`], or from [`with_leaves`] where the tree is to have two. The
//! volume is clean, its journal of 32 blocks is empty and has its header in block 50, and its bitmap marks what the test
//! names. [`change`] puts other bytes somewhere.
//!
//! Contracts say only that the disk is not open and how long it is; what it holds is seen by tests.
#![tactic(auto)]

mod bodies;
mod disk;
mod entries;
mod leaf;
mod leaves;
mod sample;
mod superblock;
mod thing;
mod volume;

pub use entries::{Entry, entries_body};
pub use leaf::{Item, Leaf, Object, Part};
pub use sample::{FILE_LEAF, Sample, SampleAnswer};
pub use thing::{Content, Thing, leaf_of};
pub use volume::{change, with_leaf, with_leaves};
