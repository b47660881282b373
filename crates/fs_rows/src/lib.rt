//! The rows of a tree, one for each path, with their text and the marks of files.
//!
//! A caller makes [`Row`]s with their [`Name`]s and [`Path`]s, collects them in [`Rows`], and prints these by
//! [`write_rows`]. A reader of a volume finds of each object a [`RowPlace`] and a [`Content`], and what goes by its [`Kind`] is
//! asked of that. A [`Marker`] takes the blocks of a file and gives its mark; [`FileBytes`] takes its bytes and blocks in
//! order.
#![tactic(auto)]

mod content;
mod file;
mod gathering;
mod kind;
mod line;
mod mark;
mod name;
mod path;
mod pieces;
mod row;
mod row_place;
mod rows;
mod shared;
mod write;

pub use content::{Content, no_content};
pub use file::FileBytes;
pub use mark::Marker;
pub use name::Name;
pub use path::Path;
pub use pieces::{block_count, copy_piece, count_below};
pub use row::{Kind, Row, Time};
pub use row_place::RowPlace;
pub use rows::Rows;
pub use sink_text::{Access, Disk, Fault, Memory};
pub use vol_block;
pub use write::write_rows;
