//! What a sound Btrfs volume is: its trees, names, references, extents, checksums, block groups, stripes, totals and
//! free space agree.
#![tactic(auto)]

mod laws;
mod span;

pub use btr_reader;
pub use free_space;
pub use laws::written_free_space_is_kept;
pub use span::Span;
