//! Nodes of a ReiserFS tree as views of a block: leaves with their items, and inner nodes with their children.
//!
//! A caller knows from the superblock, or from the node above, which level a block should have. It reads a block of
//! level 1 with [`LeafView::read`] and goes over the heads and bodies of its items, and a block of a higher level with
//! [`InnerView::read`] and goes over its children. Either is None exactly where the block is off the grammar of its
//! node. Items of version 0, the form of ReiserFS 3.5, and of version 1 are read alike. A view borrows the block;
//! nothing here allocates or fails otherwise.
#![tactic(auto)]

mod head;
mod inner;
mod leaf;

pub use head::{ItemHead, ItemKind};
pub use inner::InnerView;
pub use leaf::LeafView;
pub use reiserfs_format;
pub use vol_block;
pub use vol_block::{Block, BlockNo, Field, put_fields, put_u32, u16_at, u32_at, u64_at};
