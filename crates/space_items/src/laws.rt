// Laws of the definitions, each the contract of a function that does nothing.
ghost use Rattle.space_items.specs.Laws.{ChunksAreOne, ChunkItemsFit, RootItemsFit};

/// A plan makes one list of chunks of a volume, so what is said of the chunks of any such list holds of each.
pub fn chunks_are_one()
    ensures { ChunksAreOne }
{}

/// The items of the chunk tree and those of the device tree ascend by their keys, and none is longer than a root item.
pub fn chunk_items_fit()
    ensures { ChunkItemsFit }
{}

/// The items of the root tree ascend by their keys, where the trees ascend by their numbers, and none is longer than a root
/// item.
pub fn root_items_fit()
    ensures { RootItemsFit }
{}
