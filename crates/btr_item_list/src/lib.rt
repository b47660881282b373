//! Items of a Btrfs tree in memory, and what makes them: inodes and their names, records that are appended to a body, records
//! of one number that become one item, file extents, and numbers of things under numbers.
#![tactic(auto)]

mod extent;
mod inode;
mod items;
mod join;
mod laws;
mod list;
mod records;
mod spot;
mod spots;
mod under;

pub use btr_node::btrfs_format;
pub use extent::{Extent, add_extent, add_inline};
pub use fs_paths::vol_block;
pub use inode::{inode_made, new_inode, stamp_of};
pub use items::{add_inode, add_ref, key_of};
pub use laws::groups_are_groups;
pub use list::ItemList;
pub use records::{put_dir_entry, put_extref, put_inode_ref, short};
pub use spot::Spot;
pub use spots::Spots;
pub use under::count_before;
