ghost use Rattle.std.specs.Prelude.{◌≡◌, ◌≤◌, length, IfOk, IfErr};
ghost use Rattle.reiser_bitmap.specs.outside.Fault.{HasCauseOf};
ghost use Rattle.reiser_bitmap.specs.outside.History.{OverTold};
ghost use Rattle.reiser_super.specs.Rules.{IsInBounds};
ghost use Rattle.reiser_volume.specs.Answers.{IsSuperOf, IsBitmapOf};
ghost use Rattle.reiser_volume.specs.Front.{IsFrontAnswer, IsFrontOf, RefusesFront};

use reiser_bitmap::{Bitmap, Block, BlockSource, VolAnswer, VolumeRefusal};
use reiser_super::reiserfs_format::block::SUPER_BLOCK;
use reiser_super::{Super, journal_state};
use std::alloc::Global;

/// What comes before the tree of a ReiserFS volume that keeps the rules of superblock, journal and bitmap.
#[derive(Drop)]
pub struct Front {
    /// The fields of the superblock.
    pub sup: Super,
    /// The blocks that are marked as used.
    pub bitmap: Bitmap,
}

impl Front {
    /// Reads superblock, journal and bitmap of a ReiserFS volume, where they keep their rules; an error is one of what is
    /// wrong with them.
    ///
    /// They are looked at one after the other, each only where those before keep their rules. Nothing of the tree is read.
    pub fn open<S: BlockSource>(alloc: Global, src: &mut S) -> Result<Front, VolAnswer>
        ensures kept { S.kept src.old src.new }
        ensures cause { HasCauseOf VolAnswer.Fault (S.faults src.old) (S.faults src.new) result }
        ensures answers { IfErr result IsFrontAnswer }
        ensures inside { IfOk result (λ front. IsInBounds front.sup) }
        ensures device { IfOk result (λ front. front.sup.blocks ≤ S.size src.old) }
        ensures size { IfOk result (λ front. length front.bitmap ≡ front.sup.blocks) }
        ensures found { OverTold S.tells (S.blocks src.old) (λ image. IfOk result (IsFrontOf image)) }
        ensures refused { OverTold S.tells (S.blocks src.old) (λ image. IfErr result (RefusesFront image)) }
    {
        let sup = read_super(src)?;
        let bitmap = read_bitmap(alloc, src, &sup)?;
        Ok(Front { sup, bitmap })
    }
}

/// Reads the superblock.
fn read_super<S: BlockSource>(src: &mut S) -> Result<Super, VolAnswer>
    ensures kept { S.kept src.old src.new }
    ensures cause { HasCauseOf VolAnswer.Fault (S.faults src.old) (S.faults src.new) result }
    ensures answers { IfErr result IsFrontAnswer }
    ensures inside { IfOk result IsInBounds }
    ensures device { IfOk result (λ s. s.blocks ≤ S.size src.old) }
    ensures found { OverTold S.tells (S.blocks src.old) (λ image. IfOk result (IsSuperOf image)) }
    ensures refused { OverTold S.tells (S.blocks src.old) (λ image. IfErr result (RefusesFront image)) }
{
    let device = src.len();
    if device <= SUPER_BLOCK {
        return Err(VolAnswer::Refused(VolumeRefusal::NotVolume));
    }
    let mut block = Block::zero();
    src.read(SUPER_BLOCK, &mut block)?;
    let sup = Super::read(&block, device)?;
    Ok(sup)
}

/// Looks at the journal, and loads the bitmap where no transaction waits.
fn read_bitmap<S: BlockSource>(alloc: Global, src: &mut S, sup: &Super) -> Result<Bitmap, VolAnswer>
    requires inside { IsInBounds sup.now }
    requires device { sup.now.blocks ≤ S.size src.old }
    ensures kept { S.kept src.old src.new }
    ensures cause { HasCauseOf VolAnswer.Fault (S.faults src.old) (S.faults src.new) result }
    ensures answers { IfErr result IsFrontAnswer }
    ensures size { IfOk result (λ map. length map ≡ sup.now.blocks) }
    ensures found { OverTold S.tells (S.blocks src.old) (λ image. IsSuperOf image sup.now → IfOk result (IsBitmapOf image)) }
    ensures refused { OverTold S.tells (S.blocks src.old) (λ image. IsSuperOf image sup.now → IfErr result (RefusesFront image)) }
{
    journal_state(src, sup)?;
    let bitmap = Bitmap::load(alloc, src, sup.blocks)?;
    bitmap.system_used(sup.journal_first, sup.journal_size)?;
    Ok(bitmap)
}
