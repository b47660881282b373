// Each law is the contract of a function that does nothing.
ghost use Rattle.btr_reader_walk.specs.Laws.{ChildrenGiveItems, LeavesGiveItems, NodesAreMet, NodesDecide, SubtreesAreTrees};

use btr_node::damages_tell;

/// A leaf on the grammar gives its own items.
pub fn leaves_give_items()
    ensures { LeavesGiveItems }
{
    damages_tell();
}

/// An inner node on the grammar gives the items of its children, one child after the other.
pub fn children_give_items()
    ensures { ChildrenGiveItems }
{
    damages_tell();
}

/// A root under which no node breaks a rule, and under which keys ascend, has these items as its tree.
pub fn subtrees_are_trees()
    ensures { SubtreesAreTrees }
{}

/// Where two disks have the same bytes in the nodes that are met, the same is met.
pub fn nodes_decide()
    ensures { NodesDecide }
{}

/// Where a tree has its own nodes alone, its nodes are those that a walk over its items meets.
pub fn nodes_are_met()
    ensures { NodesAreMet }
{}
