//! The pieces that the used blocks of a ReiserFS volume are divided into: each becomes one extent of data on Btrfs.
//!
//! A caller that opened a volume asks [`Pieces::find`] for its pieces and counts, chooses a plan by the counts, and gives
//! copies and tails their blocks by [`Pieces::place`].
#![tactic(auto)]

mod copies;
mod counts;
mod divide;
mod files;
mod find;
mod laws;
mod owned;
mod parts;
mod pieces;
mod place;
mod run;
mod tail;

pub use laws::{
    counted_pieces_fit, counts_are_small, kept_pieces_are_maximal, owners_are_named,
    pieces_cover_used, places_are_apart, plans_have_room,
};
pub use pieces::Pieces;
