ghost use Rattle.std.specs.Prelude.{length};
ghost use Rattle.btr_check_references.specs.NodeRanges.{AreNodeRanges};

use crate::node_state::{NodeRange, NodeState};

/// A state for each block of the ranges of addresses that may hold nodes: some bytes a block, and nothing for each node.
#[derive(Drop)]
pub struct NodeMap {
    pub ranges: Vec<NodeRange>,
    pub states: Vec<NodeState>,
    ghost placed: { AreNodeRanges ranges.items (length states.items) },
}
