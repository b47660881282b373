//! How much space a conversion of a volume needs, and which units of 1 MiB it takes.
//!
//! A caller makes [`Counts`] of a volume, asks [`needed`] for the units, and [`choose`] for a [`Plan`] of units that are
//! free. [`chunks_of`] divides the volume into chunks by the plan, and [`slots_of`] tells where nodes lie in its units. The
//! pieces that the volume's blocks are divided into are seen through [`PieceList`].
#![tactic(auto)]

mod choice;
mod chunk;
mod counts;
mod division;
pub mod item_bytes;
mod laws;
mod need;
mod piece;
mod places;
mod plan;
mod roles;
mod spare;
mod staying;
mod sums;
mod tree;
mod units;

pub use btr_tree::{DirEntry, Extref, Inode, InodeRef, Key, btrfs_format};
pub use choice::choose;
pub use chunk::{Chunks, PlannedChunk, Role};
pub use convert_options;
pub use counts::Counts;
pub use division::chunks_of;
pub use laws::{chunks_are_few, places_serve, plans_are_sound, plans_fit, roles_are_uses};
pub use need::{Need, needed};
pub use piece::{Piece, PieceList};
pub use places::slots_of;
pub use plan::{Plan, PlanAnswer};
pub use sums::sums_in_item;
pub use tree::{NewTree, new_trees};
pub use units::Units;
