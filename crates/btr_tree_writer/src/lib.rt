//! Writes a tree of a Btrfs volume from items that come one after the other.
//!
//! [`write_tree`] takes them from an [`ItemSource`]: a stream that reads them off the disk as it goes, or [`ListItems`], a list
//! in memory. Nodes go to slots, in order; no other block of the disk is written.
#![tactic(auto)]

mod answer;
mod form;
mod laws;
mod list;
mod source;
mod trees;
mod write;
mod writer;

pub use answer::WriteAnswer;
pub use btr_tree::btrfs_format;
pub use form::NodeForm;
pub use laws::{trees_stand_by_nodes, trees_stand_by_offsets};
pub use list::ListItems;
pub use source::ItemSource;
pub use trees::Trees;
pub use write::{WrittenTree, write_tree, write_tree_at};
