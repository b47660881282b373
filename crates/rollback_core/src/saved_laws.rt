ghost use Rattle.rollback_core.specs.SavedLaws.{PartsDecideSaved, RecoveryKeepsUse, SamePartsGoBack, UnusedBlocksDecideNothing, UnusedBlocksLieApart, UsedBlocksDecideUse};

use crate::recovery_keeps;
use btr_reader::metadata_decides;

/// Where no part of a Btrfs volume lies in one of some blocks, a disk that differs in these alone holds the same volume with the same
/// saved image and the same blocks in use, and the volume before can be had back from both or from neither.
pub fn parts_decide_saved()
    ensures { PartsDecideSaved }
{
    metadata_decides();
}

/// The same of two disks of one length on which no part of the volume lies in a block that differs.
pub fn same_parts_go_back()
    ensures { SamePartsGoBack }
{
    parts_decide_saved();
}

/// Where the volume before can be had back from a disk, it can from each that has the same in the block of the superblock and in each
/// block in use.
pub fn unused_blocks_decide_nothing()
    ensures { UnusedBlocksDecideNothing }
{
    unused_blocks_lie_apart();
    same_parts_go_back();
}

/// Which blocks are in use depends on the block of the superblock and on the blocks in use alone.
pub fn used_blocks_decide_use()
    ensures { UsedBlocksDecideUse }
{}

/// Where the way to the saved image is readable, each part of a volume lies in the block of the superblock or in a block in use.
pub fn unused_blocks_lie_apart()
    ensures { UnusedBlocksLieApart }
{}

/// What a recovery makes of a disk, or a crash of one leaves, has the same blocks in use where no reserved block is.
pub fn recovery_keeps_use()
    ensures { RecoveryKeepsUse }
{
    recovery_keeps();
}
