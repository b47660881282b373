// Laws of the extent tree's own nodes, each the contract of a function that does nothing.
ghost use Rattle.space_items.specs.Own.{OwnNodesStay};
ghost use Rattle.space_items.specs.OwnLaws.{OwnNodesAreNeeded};

/// With the extent tree's own nodes among all nodes, its items make a tree that has just these nodes: as many as were
/// counted, and each at its slot.
pub fn own_nodes_stay()
    ensures { OwnNodesStay }
{}

/// The space that a conversion needs has room for as many nodes as the bound of the extent tree's own nodes says.
pub fn own_nodes_are_needed()
    ensures { OwnNodesAreNeeded }
{}
