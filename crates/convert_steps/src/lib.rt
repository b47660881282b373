//! What a conversion is made from and what it makes, and its steps: the format of the disk, what is decided before the
//! first write, the pieces that move, the identifiers and the label, the superblock, and the switch to it.
#![tactic(auto)]

mod fields;
mod finding;
mod form;
mod pieces;
mod prepared;
mod switch;
mod trees;

pub use command_answers::Answer;
pub use fields::{NewRoots, superblock};
pub use finding::{FormatFound, find_format};
pub use form::{ids_of, label_of};
pub use pieces::write_moved;
pub use prepared::{Prepared, prepare};
pub use switch::{mirror_places, switch_to};
pub use trees::{PlacedTree, PlacedTrees};
