//! What a sound Btrfs volume asks of single items: of inodes and extents of file trees, and of extents and the references to
//! them. Nothing here reads a disk or takes memory.
#![tactic(auto)]

mod extent_items;
mod extent_rules;
mod extent_run;
mod inode_rules;
mod reference;
mod reserved;
mod run;

pub use extent_items::{ExtentTold, ExtentTreeKind, extent_of, kind_of_item};
pub use inode_rules::{entry_type, has_no_sums, keeps_fields};
pub use reference::{is_ref_item, ref_of_item, ref_place, refers_to_node};
pub use reserved::touches_reserved;
pub use run::ExtentRun;
