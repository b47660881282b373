//! The names of a Btrfs file tree, and whether its directory indexes, its dir items and the references of its inodes tell the
//! same.
#![tactic(auto)]

mod dirs;
mod hashes;
mod inodes;
mod name_list;
mod rings;
mod table;

pub use dirs::ring_of;
pub use inodes::{InodeAt, kind_of, place_of};
pub use name_list::NameList;
pub use rings::ring;
pub use table::{NameTable, names_inode};
