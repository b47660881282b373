//! The passes of a check of a Btrfs volume over one file tree: its names, its inodes and their extents.
#![tactic(auto)]

mod counting;
mod name_pass;
mod tally;

pub use btr_check_items;
pub use btr_check_names;
pub use btr_check_rules;
pub use btr_check_walk;
pub use name_pass::NamePass;
pub use tally::Tally;
