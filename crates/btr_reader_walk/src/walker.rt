ghost use Rattle.std.specs.Prelude.{◌≡◌, ◌<◌, ◌+◌, length};
ghost use Rattle.btr_node.specs.Leaf.{HasLeafLayout, items_in};
ghost use Rattle.btr_reader_walk.specs.declared.tree.Owners.TheVariants.{Own};

use crate::node_walker::NodeWalker;
use crate::tree::Tree;
use btr_node::Key;

/// Which items of the leaf in hand are still to come.
#[derive(Clone, Copy, Debug)]
pub struct LeafCursor {
    pub next: usize,
    pub left: usize,
}

/// A walk over the items of a tree, in the order of their keys: a walk over its nodes that opens each, and goes over the
/// items of each leaf.
#[derive(Drop)]
pub struct TreeWalker {
    pub tree: Tree,
    pub nodes: NodeWalker,
    pub address: u64,
    pub at: LeafCursor,
    pub last: Option<Key>,
    pub spent: bool,
    ghost same: { nodes.tree ≡ tree },
    ghost own: { nodes.owners ≡ Own },
    ghost leaf: { 0 < at.next + at.left → HasLeafLayout nodes.bytes.items },
    ghost all: { 0 < at.next + at.left → at.next + at.left ≡ length (items_in nodes.bytes.items) },
}
