//! The items of a ReiserFS tree, one after the other, or what is wrong with the tree.
//!
//! A caller that has read a volume's superblock and its bitmap makes a [`Walker`] and calls [`Walker::advance`] until it
//! answers false. After each true an item stands, with its head, its body and the block of its leaf. Each rule of the
//! tree is looked at on the way: false comes only where the whole tree keeps all of them. All memory is taken in
//! [`Walker::new`]: the path from the root, one leaf, and a bit for each block.
#![tactic(auto)]

mod advance;
mod ahead;
mod block_pointer;
mod bodies;
mod claim;
mod hand;
mod laws;
mod open;
mod path;
mod reiser_tree;
mod walker;

pub use ahead::tell_leaves;
pub use laws::{sound_trees_keep_rules, walks_are_first_parts};
pub use reiser_bitmap::{BlockSource, CopyList, Fault, Memory};
pub use reiser_items::{Block, BlockNo, ItemHead, ItemKind, u32_at};
pub use walker::Walker;
