//! What a sound Btrfs volume asks of extents beside the references that are made: the references of the pointers in nodes, how
//! often one is made, and tests of single extents. Nothing here reads a disk or takes memory.
#![tactic(auto)]

mod lookup;
mod makes;
mod tests_of_extents;

pub use btr_check_references;
pub use lookup::{count_of, find, sum_of};
pub use makes::{child_made, place_told, root_made, use_made};
pub use tests_of_extents::{are_flags, is_uncrossed, kind_alone, node_kind};
