//! Text that goes to a sink piece by piece, so that no memory is taken for it.
//!
//! A caller lists what it prints as [`TextPart`]s and calls [`write_pieces`]; the sink gains exactly their text, or after
//! a fault a first part of it. A long text is gathered by [`Buffered`], so that the sink gets few large pieces.
//! [`escape`] is how a byte of a name is printed.
#![tactic(auto)]

mod buffered;
mod digits;
mod escapes;
mod label;
mod text_part;

pub use buffered::Buffered;
pub use escapes::{Spelling, escape};
pub use label::label_piece;
pub use outside::{Access, Block, Disk, Fault, Memory, Sink, put_u64};
pub use text_part::{TextPart, write_pieces};
