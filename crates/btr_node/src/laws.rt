// Each law is the contract of a function that does nothing.
ghost use Rattle.btr_node.specs.Laws.{DamagesTell, InnerNodesReadBack, JoinedAscend, LeavesReadBack, PartsAscend};

/// The bytes of a leaf are on the grammar of leaves, and its items are those that were put in.
pub fn leaves_read_back()
    ensures { LeavesReadBack }
{}

/// The bytes of an inner node that has a child are on the grammar of inner nodes, and its children are those that were
/// put in.
pub fn inner_nodes_read_back()
    ensures { InnerNodesReadBack }
{}

/// A leaf or an inner node breaks no rule exactly where its bytes are on the grammar.
pub fn damages_tell()
    ensures { DamagesTell }
{}

/// The first keys and the last of those that ascend ascend.
pub fn parts_ascend()
    ensures { PartsAscend }
{}

/// Keys that ascend, and others that do and of which the first is above their last, ascend together.
pub fn joined_ascend()
    ensures { JoinedAscend }
{}
