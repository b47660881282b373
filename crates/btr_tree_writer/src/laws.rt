// Laws of the definitions, each the contract of a function that does nothing.
ghost use Rattle.btr_tree_writer.specs.Trees.{TreesStandByNodes, TreesStandByOffsets};

/// A tree stands on each disk that has the same blocks where its nodes lie. So others may be written beside it.
pub fn trees_stand_by_nodes()
    ensures { TreesStandByNodes }
{}

/// The same by a map of addresses that gives the nodes' slots at their offsets.
pub fn trees_stand_by_offsets()
    ensures { TreesStandByOffsets }
{}
