// What the items of the free space tree are: each law is the contract of a function that does nothing.
ghost use Rattle.free_space.specs.Laws.{
  FreeInfosReadBack,
  FreeItemsFit,
  FreeItemsTell,
  FreeSpaceIsTold,
};

/// The bytes of a block group's item read as that value.
pub fn free_infos_read_back()
    ensures { FreeInfosReadBack }
{}

/// The items for block groups and used ranges that ascend tell the free space of the groups.
pub fn free_items_tell()
    ensures { FreeItemsTell }
{}

/// A tree can be made of these items.
pub fn free_items_fit()
    ensures { FreeItemsFit }
{}

/// Items that tell the free space of groups tell it of each group as Linux reads it.
pub fn free_space_is_told()
    ensures { FreeSpaceIsTold }
{}
