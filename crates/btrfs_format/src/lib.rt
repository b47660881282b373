//! The numbers of the Btrfs on-disk format, by the names that Linux gives them in `include/uapi/linux/btrfs_tree.h` and
//! `include/uapi/linux/btrfs.h`, without `BTRFS_` before and `_KEY` behind. Contracts, definitions and proofs use the same
//! names, which they take from `specs.declared`.
//!
//! There is no code here, and nothing is read or written.
#![tactic(auto)]

pub mod block;
pub mod feature;
pub mod flag;
pub mod key;
pub mod object;
pub mod size;
