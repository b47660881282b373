//! Laws on rows: each accepted ReiserFS volume has them, and each Btrfs volume that can be read. So what is promised of
//! the rows of a volume is never promised of nothing.
//!
//! Each is the contract of a function that does nothing. A proof that cites one calls it.
#![tactic(auto)]

mod laws;

pub use laws::{accepted_volumes_have_rows, readable_volumes_have_rows};
