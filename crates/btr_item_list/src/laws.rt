// Laws of the definitions: each is the contract of a function that does nothing.
ghost use Rattle.btr_item_list.specs.Lists.{GroupsAreGroups};

/// Grouping by a number gives a group for each number that there is, ascending, with its elements in their order.
pub fn groups_are_groups()
    ensures { GroupsAreGroups }
{}
