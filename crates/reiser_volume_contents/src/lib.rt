//! The items of one object of a ReiserFS volume, read again, and what they say of a file.
//!
//! A caller that has the objects of a tree, of one walk, asks for the mark of a file, for the map of its blocks, for what
//! direct items hold of a block, or for the target of a symlink. Each call reads the leaves that hold items of the object,
//! one after the other, and keeps no more than one of them; a mark reads the blocks of the file too, in their order.
#![tactic(auto)]

mod calls;
mod laws;
mod leaf;
mod link;
mod map;
mod mark;
mod object_items;
mod open;
mod reading;
mod tail;

pub use calls::{file_map, file_mark, file_tail, link_target};
pub use laws::used_blocks_decide;
pub use object_items::ObjectItems;
