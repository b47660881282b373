// A law of the definitions, the contract of a function that does nothing.
ghost use Rattle.reiser_volume_contents.specs.Laws.{UsedBlocksDecide};

/// Where nothing is wrong with a tree, each image that has the same in the used blocks holds the same tree, with which
/// nothing is wrong.
pub fn used_blocks_decide()
    ensures { UsedBlocksDecide }
{}
