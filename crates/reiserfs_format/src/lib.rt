//! The numbers of the ReiserFS on-disk format, by the names that Linux gives them in `fs/reiserfs/reiserfs.h`. Contracts,
//! definitions and proofs use the same names, which they take from `specs.declared`.
//!
//! There is no code here, and nothing is read or written.
#![tactic(auto)]

pub mod block;
pub mod key;
pub mod size;
