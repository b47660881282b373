//! The items of the file trees of a Btrfs volume, on their forms: the grammar of each kind, the hashes that items stand under,
//! and what entries of directories may name. Nothing here reads a disk or takes memory.
#![tactic(auto)]

mod attributes;
mod forms;

pub use btr_check_rules;
pub use forms::{is_inode_number, is_on_form};
