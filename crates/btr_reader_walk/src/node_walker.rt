ghost use Rattle.std.specs.Prelude.{◌≡◌, ◌≤◌, ◌+◌, ◌*◌, length, vec_capacity, IsTrue};
ghost use Rattle.btr_reader_walk.specs.Stack.{fan_out, is_node_size, is_stack};

use crate::tree::{NodeEntry, Owners, Tree};

/// A walk over the nodes of a tree, each before those below it.
///
/// It keeps one node in a buffer, and the entries of the nodes that are still to be met.
#[derive(Drop)]
pub struct NodeWalker {
    pub tree: Tree,
    pub owners: Owners,
    pub pending: Vec<NodeEntry>,
    pub bytes: Vec<u8>,
    ghost size: { IsTrue (is_node_size tree.form.nodesize) },
    ghost buffer: { length bytes.items ≡ tree.form.nodesize },
    ghost stack: { IsTrue (is_stack (tree.root.level * fan_out tree.form.nodesize) (fan_out tree.form.nodesize) 0 pending.items) },
    ghost room: { tree.root.level * fan_out tree.form.nodesize + 1 ≤ vec_capacity pending },
}
