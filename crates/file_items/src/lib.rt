//! The items of the file trees of a converted volume: those of the file tree, number 5, of the tree of the saved image and of
//! the relocation tree.
//!
//! [`Items`] gives them one after the other, ascending by key. It holds the items of one object at a time, and of a file
//! one extent; beside that a few words for each link of the volume and for each piece.
#![tactic(auto)]

mod contents;
mod directory;
mod files;
mod image;
mod inode;
mod items;
mod link_index;
mod object_names;
mod order;
mod small;

pub use items::Items;
