//! The items of a Btrfs tree, one after the other, or its nodes, and what is wrong with the tree.
#![tactic(auto)]

mod advance;
mod blocks;
mod laws;
mod map;
mod node;
mod node_walker;
mod note;
mod tree;
mod visit;
mod walker;

pub use blocks::read_node;
pub use btr_node::{
    Block, BlockNo, BlockSource, BtrAnswer, BtrRefusal, BtrRule, DirEntry, DirItems, DiskRange,
    ExtentContent, Fault, Feature, FileExtent, Head, Inode, Key, Memory, Stamp, SumKind, btr_keys,
    btrfs_format, u16_at, vol_block,
};
pub use laws::{
    children_give_items, leaves_give_items, nodes_are_met, nodes_decide, subtrees_are_trees,
};
pub use map::{MapRange, is_mapped, place};
pub use node_walker::NodeWalker;
pub use note::{Notes, note_items};
pub use tree::{Form, NodeEntry, NodePointer, Owners, Tree, is_file_tree};
pub use walker::{LeafCursor, TreeWalker};
