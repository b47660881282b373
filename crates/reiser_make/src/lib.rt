//! Sample ReiserFS volumes: good volumes of any size whose every block follows from a number.
//!
//! [`make`] writes the sample of a number into the first blocks of a disk, and [`make_old`] the same tree with items of
//! version 0, as volumes of format 3.5 have them. A sample holds directories of a hundred names each: files of a few bytes,
//! of whole blocks, of both and with holes, symlinks, and further names of files.
#![tactic(auto)]

mod bitmap;
mod body;
mod directory;
mod draw;
mod inner;
mod layout;
mod leaf;
mod level;
mod maker;
mod name;
mod node;
mod object;
mod place;
mod sample;
mod sample_entry;
mod sample_item;
mod sample_plan;
mod superblock;

pub use maker::{MakeAnswer, make, make_old};
