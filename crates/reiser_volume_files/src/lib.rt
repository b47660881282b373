//! The bytes of one object of a ReiserFS volume, from its items.
//!
//! A caller that goes over the items of a tree gives those of one object, in their order and as its size says, to a
//! [`FileMarker`], which makes the mark of the file, to a [`FileMapper`], which says where its blocks lie, or to
//! [`put_tail`], which gathers what direct items hold of one block. Bytes, pointers and blocks past the size are not
//! looked at.
#![tactic(auto)]

mod laws;
mod map;
mod mapper;
mod mapping;
mod marker;
mod marking;
mod pieces;
mod tail;

pub use laws::{
    apart_items_follow, blocks_are_held, blocks_of_bytes, file_runs_say, items_name_blocks,
    keys_order_items, named_blocks_decide, targets_are_bytes,
};
pub use map::{FileMap, FileRun, RunFrom};
pub use mapper::FileMapper;
pub use marker::FileMarker;
pub use pieces::are_inside;
pub use tail::{put_tail, target};
