//! Keys of Btrfs trees, and the item bodies of file trees: inodes, their names, and file extents.
//!
//! A caller reads a body with the type's `read`, which is None exactly where the body is off the form of its item,
//! and writes a value with `write` into a slice of the body's length. Names and inline contents are borrowed from
//! the body. Nothing here allocates or fails otherwise.
#![tactic(auto)]

mod body;
mod dir_entry;
mod extref;
mod file_extent;
mod inode;
mod inode_ref;
mod key;
mod laws;
mod named;
mod stamp;

pub use dir_entry::{DirEntry, DirItems};
pub use extref::{Extref, Extrefs};
pub use file_extent::{DiskRange, ExtentContent, FileExtent};
pub use inode::Inode;
pub use inode_ref::{InodeRef, InodeRefs};
pub use key::Key;
pub use laws::{
    dir_items_read_back, disk_ranges_read_back, extrefs_read_back, file_extents_read_back,
    inode_refs_read_back, inodes_read_back, keys_read_back, stamps_read_back,
};
pub use stamp::Stamp;
pub use vol_block;
pub use vol_block::{Field, array_at, btrfs_format, put_fields, u16_at, u32_at, u64_at};
