// What is written is read again: each law is the contract of a function that does nothing. They speak of values that fit
// their fields, as every value of the types does; a name has at most 65,535 bytes.
ghost use Rattle.btr_space_items.specs.Laws.{
  BlockGroupsReadBack,
  DevExtentsReadBack,
  DevicesReadBack,
  StripesReadBack,
  ExtentHeadsReadBack,
  ChunksReadBack,
  RootItemsReadBack,
  RootRefsReadBack,
  InlineRefsReadBack,
};

/// The bytes of a block group read as that block group.
pub fn block_groups_read_back()
    ensures { BlockGroupsReadBack }
{}

/// The bytes of a device extent read as that device extent.
pub fn dev_extents_read_back()
    ensures { DevExtentsReadBack }
{}

/// The bytes of a device read as that device.
pub fn devices_read_back()
    ensures { DevicesReadBack }
{}

/// The bytes of a stripe read as that stripe.
pub fn stripes_read_back()
    ensures { StripesReadBack }
{}

/// The first bytes of an extent read as its head, whatever stands behind them.
pub fn extent_heads_read_back()
    ensures { ExtentHeadsReadBack }
{}

/// The bytes of a chunk of one stripe read as that chunk.
pub fn chunks_read_back()
    ensures { ChunksReadBack }
{}

/// The bytes of a root item read as that root item.
pub fn root_items_read_back()
    ensures { RootItemsReadBack }
{}

/// The bytes of a root ref read as that root ref.
pub fn root_refs_read_back()
    ensures { RootRefsReadBack }
{}

/// The bytes of any number of references, one after the other, read as these references.
pub fn inline_refs_read_back()
    ensures { InlineRefsReadBack }
{}
