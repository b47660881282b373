// Laws of the definitions, each the contract of a function that does nothing.
ghost use Rattle.reiser_bitmap.specs.Laws.{BitmapBlocksDecide, UsedBlocksAreHad, SystemBlocksPass, FreeUnitsPass, FreeRunsAreMaximal};

/// The bitmap of a volume depends on its bitmap blocks alone.
pub fn bitmap_blocks_decide()
    ensures { BitmapBlocksDecide }
{}

/// The list of a set's blocks holds exactly the blocks that it has.
pub fn used_blocks_are_had()
    ensures { UsedBlocksAreHad }
{}

/// The system blocks of a volume that holds its superblock and its journal are its blocks that pass the test.
pub fn system_blocks_pass()
    ensures { SystemBlocksPass }
{}

/// The test of a free unit tells whether all its blocks lie in the volume, and each is unused and not reserved.
pub fn free_units_pass()
    ensures { FreeUnitsPass }
{}

/// The runs of free units are not empty, cannot be made longer, ascend, and hold each free unit.
pub fn free_runs_are_maximal()
    ensures { FreeRunsAreMaximal }
{}
