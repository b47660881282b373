ghost use Rattle.std.specs.Prelude.{◌≡◌, ◌<◌, ◌+◌};
ghost use Rattle.reiser_volume_objects.specs.reiser_node.Leaf.{IsLeaf, count};

use reiser_volume_objects::{Block, BlockNo};

/// Which items of a leaf are still to come.
#[derive(Clone, Copy, Debug)]
pub struct NodeCursor {
    pub next: usize,
    pub left: usize,
}

/// A leaf, and which of its items are still to come. Before the first leaf it is any block with none.
#[derive(Drop)]
pub struct LeafInHand {
    pub no: BlockNo,
    pub block: Block,
    pub at: NodeCursor,
    ghost leaf: { 0 < at.next + at.left → IsLeaf block.bytes },
    ghost all: { 0 < at.next + at.left → at.next + at.left ≡ count block.bytes },
}
