ghost use Rattle.std.specs.Prelude.{◌≡◌, ◌<◌, ◌+◌};
ghost use Rattle.reiser_items.specs.reiser_node.Inner.{IsInner, pointer_count};
ghost use Rattle.reiser_items.specs.reiser_node.Leaf.{IsLeaf, level, count};

use reiser_items::{Block, BlockNo};

/// Which items or children of a node are still to come.
#[derive(Clone, Copy, Debug)]
pub struct NodeCursor {
    pub next: usize,
    pub left: usize,
}

/// A leaf, and which of its items are still to come. Before the first leaf, and where a node is still to be looked at, it
/// is any block with none.
#[derive(Drop)]
pub struct LeafInHand {
    pub no: BlockNo,
    pub block: Block,
    pub at: NodeCursor,
    ghost leaf: { 0 < at.next + at.left → IsLeaf block.bytes },
    ghost all: { 0 < at.next + at.left → at.next + at.left ≡ count block.bytes },
}

/// An inner node, and which of its children are still to come.
#[derive(Drop)]
pub struct Step {
    pub no: BlockNo,
    pub block: Block,
    pub at: NodeCursor,
    ghost inner: { IsInner (level block.bytes) block.bytes },
    ghost all: { at.next + at.left ≡ pointer_count block.bytes },
}
