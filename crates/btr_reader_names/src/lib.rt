//! The names of a Btrfs file tree: which inodes its directories name, and whether names and inodes keep the rules.
//!
//! One walk of the tree gives a [`NameTable`], which keeps what inode items and directory indexes say and passes over all
//! others. [`NameTable::check`] gives the inodes that the root directory reaches, or refuses by a rule that fails;
//! [`NameTable::links`] gives what [`fs_paths::paths`] makes paths of.
#![tactic(auto)]

mod check;
mod dir_index;
mod entry;
mod entry_rules;
mod inode_rules;
mod inodes;
mod links;
mod read;
mod seen;
mod table;

pub use dir_index::{DirIndex, OffForm};
pub use entry::index_entry;
pub use entry_rules::is_name;
pub use inodes::{InodeFound, kind_of_mode};
pub use links::{inode_node, names_inode, names_tree};
pub use seen::{NameIn, see_name};
pub use table::{NameTable, naming_of};
