//! The kinds of checksums that a Btrfs volume may have.
//!
//! A caller keeps the volume's [`SumKind`], takes [`kind_sum`] of the bytes that the checksum of a node or a superblock
//! covers, and finds from [`kind_width`] how many bytes of it a checksum of data has. Nothing here allocates or fails.
#![tactic(auto)]

mod kind;

pub use castagnoli::{data_ref_hash, name_hash};
pub use kind::{SumKind, kind_sum, kind_width};
