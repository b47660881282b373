//! Part 5 of a sound Btrfs volume: the checksums of data. What file extents use, by whether it needs checksums; the items of the
//! checksum tree, and the blocks that they cover; and all data that has checksums, read in the order of the device.
//!
//! [`judge_sums`] decides the part, once [`TreeUses`] has met the items of each tree of files.
#![tactic(auto)]

mod blocks;
mod cover;
mod data_pass;
mod due_sum;
mod hand;
mod judging;
mod place_run;
mod places;
mod sum_items;
mod sum_part;
mod sum_pass;
mod sum_visits;
mod tree_data;
mod tree_uses;
mod tree_visits;
mod use_of_data;
mod uses;

pub use btr_check_walk;
pub use number_runs;
pub use sum_part::judge_sums;
pub use tree_uses::{Owner, TreeUses};
pub use use_of_data::{DataOf, LaidOut, UsedBlocks, Uses};
