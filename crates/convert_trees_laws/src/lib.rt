//! Laws on the trees of a converted volume, before any node is written:
//!
//! - on the items of the file trees: their keys ascend, each fits into a leaf, they depend on the volume's used blocks
//!   alone, the pieces that they are made from hold the volume's files, and a tree of them has the inodes of the
//!   volume's objects and the entries of its directories;
//! - on what such a tree shows: its names keep the rules of a Btrfs tree, its paths are those of the volume, with one
//!   entry more for the tree of the saved image, and so are its inodes and its rows;
//! - on space: the bytes that the trees take are no more than what was counted, so the nodes of all trees find their
//!   slots in the units that the plan takes.
//!
//! Each is the contract of a function that does nothing. A proof that cites one calls it.
#![tactic(auto)]

mod files;
mod rows;
mod space;

pub use files::{
    entries_are_there, file_keys_ascend, files_are_held, image_keys_ascend, inodes_are_there,
    items_are_short, items_by_used_blocks,
};
pub use rows::{inodes_are_read, names_are_kept, names_keep_rules, rows_are_kept};
pub use space::{file_tree_is_counted, plans_suffice, trees_are_counted};
