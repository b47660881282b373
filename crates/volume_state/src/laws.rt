// Laws of the definitions, each the contract of a function that does nothing.
ghost use Rattle.volume_state.specs.Laws.{SpareBlocksDecideNothing};

/// What differs in blocks that are reserved on the old volume, but for block 16, is nothing to a volume from which that can be had back: it
/// is the same volume, with the same saved image.
pub fn spare_blocks_decide_nothing()
    ensures { SpareBlocksDecideNothing }
{}
