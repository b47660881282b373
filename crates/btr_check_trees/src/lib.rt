//! The passes of a check of a Btrfs volume over its chunk tree and its totals: what they tell, and what is wrong with it,
//! with the superblock and with the chunks. And kinds of items that stand in one tree each.
#![tactic(auto)]

mod among;
mod chunk_items;
mod chunk_tree;
mod own_kinds;
mod totals;

pub use btr_check_walk::btr_check_rules;
pub use chunk_tree::{ChunksFound, read_chunk_tree};
pub use own_kinds::{OwnKinds, has_own_tree};
pub use totals::judge_totals;
