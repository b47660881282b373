//! The superblock of a ReiserFS volume, and whether its journal holds a transaction that waits.
//!
//! A caller reads block 16 and calls [`Super::read`], which gives the fields of a volume that can be converted, or the
//! first reason why it is refused; then [`journal_state`] looks at the journal. Nothing here takes memory.
#![tactic(auto)]

mod journal;
mod laws;
mod superblock;

pub use journal::journal_state;
pub use laws::{clean_is_not_refused, log_decides_journal};
pub use reiserfs_format;
pub use superblock::Super;
