ghost use Rattle.std.specs.Prelude.{◌≡◌, IfOk, IfErr};
ghost use Rattle.reiser_bitmap.specs.outside.Fault.{HasCauseOf};
ghost use Rattle.reiser_bitmap.specs.outside.History.{OverTold};
ghost use Rattle.reiser_volume.specs.Answers.{IsVolumeAnswer, RefusesVolume};
ghost use Rattle.reiser_volume.specs.Opened.{IsOpened};
ghost use Rattle.reiser_volume.specs.Volume.{IsAccepted};

use crate::Volume;
use crate::front::Front;
use crate::gather::gather;
use reiser_bitmap::{BlockSource, VolAnswer};
use reiser_volume_objects::Objects;
use std::alloc::Global;

impl Volume {
    /// Opens a ReiserFS volume, where it keeps all rules; an error is one of what is wrong with it.
    ///
    /// The rules are looked at in groups, each only where those before are kept: superblock, journal, bitmap, tree,
    /// objects, names. Each node of the tree is read once.
    pub fn open<S: BlockSource>(alloc: Global, src: &mut S) -> Result<Volume, VolAnswer>
        ensures kept { S.kept src.old src.new }
        ensures cause { HasCauseOf VolAnswer.Fault (S.faults src.old) (S.faults src.new) result }
        ensures answers { IfErr result IsVolumeAnswer }
        ensures accepted { OverTold S.tells (S.blocks src.old) (λ image. IfOk result (λ _. IsAccepted image)) }
        ensures opened { OverTold S.tells (S.blocks src.old) (λ image. IfOk result (λ volume. IsOpened volume image)) }
        ensures refused { OverTold S.tells (S.blocks src.old) (λ image. IfErr result (RefusesVolume image)) }
    {
        let front = Front::open(alloc, src)?;
        let objects = Objects::read(
            alloc,
            src,
            &front.bitmap,
            front.sup.root,
            front.sup.height,
            front.sup.journal_first,
            front.sup.journal_size,
        )?;
        gather(alloc, front.sup, front.bitmap, objects)
    }
}
