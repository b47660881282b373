// Laws of the definitions, each the contract of a function that does nothing.
ghost use Rattle.volume_app.specs.Laws.{CrashesAtAnyMoment, InspectTellsSpace, InspectTextsAreOne, ListTextsAreOne, RecoversAfterCrashes, RollbackUndoesConvert};

use btr_reader::btrfs_rows_are_one;
use first_sync::first_sync_parts;
use reiser_volume::rows_are_one;
use rollback_core::{unused_blocks_decide_nothing, used_blocks_decide_use};
use volume_state::spare_blocks_decide_nothing;

/// `inspect` with some options has one text to print of a disk: the blocks decide it.
pub fn inspect_texts_are_one()
    ensures { InspectTextsAreOne }
{}

/// The space that `inspect` tells of is that by which `convert` with the same options is refused or not.
pub fn inspect_tells_space()
    ensures { InspectTellsSpace }
{}

/// `list` has one text to print of a disk.
pub fn list_texts_are_one()
    ensures { ListTextsAreOne }
{
    rows_are_one();
    btrfs_rows_are_one();
}

/// A volume that is converted and then rolled back has each of its used blocks as it was before.
pub fn rollback_undoes_convert()
    ensures { RollbackUndoesConvert }
{}

/// What is promised of crashes since the first sync of a command, said of every moment: where the disk was settled a crash leaves one of the
/// two formats with its tree, and else it may leave what a crash before the command could have left.
pub fn crashes_at_any_moment()
    ensures { CrashesAtAnyMoment }
{
    first_sync_parts();
    spare_blocks_decide_nothing();
}

/// What a crash of a command leaves is opened by `recover`; and after any number of runs of `recover`, each of which a crash cuts off, it
/// still is, and one of the two formats stands with its tree.
pub fn recovers_after_crashes()
    ensures { RecoversAfterCrashes }
{
    first_sync_parts();
    spare_blocks_decide_nothing();
    unused_blocks_decide_nothing();
    used_blocks_decide_use();
}
