// What is to be written to the places of the copies of a Btrfs superblock.
ghost use Rattle.std.specs.Prelude.{◌≡◌, ◌≤◌, ◌<◌, ◌^◌, true, is_some, IfErr, IfOk, Ok, length};
ghost use Rattle.std.specs.Result.{MatchResult};
ghost use Rattle.reiser_bitmap.specs.outside.Fault.{HasCause, HasCauseOf};
ghost use Rattle.reiser_bitmap.specs.outside.Format.{format_in};
ghost use Rattle.reiser_bitmap.specs.outside.History.{OverTold, block_at};
ghost use Rattle.reiser_bitmap.specs.vol_block.declared.format.Format.TheVariants as formats;
ghost use Rattle.rollback_core.specs.RecoveryAnswers.{IsRecoverAnswer, RefusesRecover};
ghost use Rattle.convert_steps.specs.Found.{IsFoundOn};
ghost use Rattle.rollback_core.specs.Mending.{Gives, copied, wiped};
ghost use Rattle.rollback_core.specs.Planned.{HasMendingRoom, IsPlanned};

use crate::wiping::is_wiped;
use btr_reader::btr_super::{Super, mirror};
use btr_reader::btrfs_format::block::{FIRST_MIRROR, SECOND_MIRROR, SUPER_BLOCK};
use convert_steps::{Answer, FormatFound, find_format};
use reiser_bitmap::{Bitmap, Block, BlockNo, BlockSource, Fault, Format, VolumeRefusal};
use reiser_volume::Front;
use std::alloc::Global;

/// What is to be written to the blocks of the copies: a block for each that is to change.
#[derive(Clone, Copy, Debug)]
pub struct Mending {
    /// The format of the volume.
    pub format: Format,
    /// What is to be written to the block of the first copy.
    pub first: Option<Block>,
    /// What is to be written to the block of the second copy.
    pub second: Option<Block>,
}

/// Looks at the volume of a disk, and says what is to be written. Nothing is written.
pub fn plan<S: BlockSource>(alloc: Global, src: &mut S) -> Result<Mending, Answer>
    ensures kept { S.kept src.old src.new }
    ensures planned { OverTold S.tells (S.blocks src.old) (λ image. MatchResult result (IsPlanned image) (RefusesRecover image)) }
    ensures room { IfOk result (HasMendingRoom (S.size src.old)) }
    ensures cause { HasCauseOf Answer.Fault (S.faults src.old) (S.faults src.new) result }
    ensures answers { IfErr result IsRecoverAnswer }
{
    let found = find_format(src)?;
    plan_as(&found, alloc, src)
}

/// What is to be written, by the format that was found.
fn plan_as<S: BlockSource>(
    found: &FormatFound,
    alloc: Global,
    src: &mut S,
) -> Result<Mending, Answer>
    ensures kept { S.kept src.old src.new }
    ensures planned { OverTold S.tells (S.blocks src.old) (λ image. IsFoundOn image found.now → MatchResult result (IsPlanned image) (RefusesRecover image)) }
    ensures room { IfOk result (HasMendingRoom (S.size src.old)) }
    ensures cause { HasCauseOf Answer.Fault (S.faults src.old) (S.faults src.new) result }
    ensures answers { IfErr result IsRecoverAnswer }
{
    match found.format {
        Format::Reiser => plan_reiser(alloc, src),
        Format::Btrfs => plan_btrfs(src, &found.block),
        Format::Neither => Err(Answer::Volume(VolumeRefusal::NotVolume)),
    }
}

/// What is to be written to a ReiserFS volume.
fn plan_reiser<S: BlockSource>(alloc: Global, src: &mut S) -> Result<Mending, Answer>
    ensures kept { S.kept src.old src.new }
    ensures planned { OverTold S.tells (S.blocks src.old) (λ image. formats.Reiser ≡ format_in image → MatchResult result (IsPlanned image) (RefusesRecover image)) }
    ensures room { IfOk result (HasMendingRoom (S.size src.old)) }
    ensures cause { HasCauseOf Answer.Fault (S.faults src.old) (S.faults src.new) result }
    ensures answers { IfErr result IsRecoverAnswer }
{
    let front = Front::open(alloc, src)?;
    Ok(wipe_both(src, &front.bitmap)?)
}

/// What is to be written to a Btrfs volume with this superblock.
fn plan_btrfs<S: BlockSource>(src: &mut S, superblock: &Block) -> Result<Mending, Answer>
    ensures kept { S.kept src.old src.new }
    ensures planned { OverTold S.tells (S.blocks src.old) (λ image. formats.Btrfs ≡ format_in image → superblock.now.bytes ≡ block_at image SUPER_BLOCK → MatchResult result (IsPlanned image) (RefusesRecover image)) }
    ensures room { IfOk result (HasMendingRoom (S.size src.old)) }
    ensures cause { HasCauseOf Answer.Fault (S.faults src.old) (S.faults src.new) result }
    ensures answers { IfErr result IsRecoverAnswer }
{
    let sup = Super::read(superblock, SUPER_BLOCK, src.len())?;
    Ok(copy_both(src, superblock, sup.total_bytes / 4096)?)
}

/// What is to be written to a ReiserFS volume in order, with these used blocks.
fn wipe_both<S: BlockSource>(src: &mut S, used: &Bitmap) -> Result<Mending, Fault>
    requires device { length used.now ≤ S.size src.old }
    ensures kept { S.kept src.old src.new }
    ensures format { IfOk result (λ m. m.format ≡ formats.Reiser) }
    ensures first { OverTold S.tells (S.blocks src.old) (λ image. IfOk result (λ m.
        Gives (block_at image FIRST_MIRROR) (wiped (length used.now) used.now FIRST_MIRROR (block_at image FIRST_MIRROR)) m.first)) }
    ensures second { OverTold S.tells (S.blocks src.old) (λ image. IfOk result (λ m.
        Gives (block_at image SECOND_MIRROR) (wiped (length used.now) used.now SECOND_MIRROR (block_at image SECOND_MIRROR)) m.second)) }
    ensures room { IfOk result (HasMendingRoom (S.size src.old)) }
    ensures cause { HasCause (S.faults src.old) (S.faults src.new) result }
{
    let first = wipe(src, used, FIRST_MIRROR)?;
    let second = wipe(src, used, SECOND_MIRROR)?;
    Ok(Mending {
        format: Format::Reiser,
        first,
        second,
    })
}

/// What is to be written to a Btrfs volume of so many blocks with this superblock.
fn copy_both<S: BlockSource>(src: &mut S, superblock: &Block, blocks: u64) -> Result<Mending, Fault>
    requires device { blocks ≤ S.size src.old }
    ensures kept { S.kept src.old src.new }
    ensures format { IfOk result (λ m. m.format ≡ formats.Btrfs) }
    ensures first { OverTold S.tells (S.blocks src.old) (λ image. IfOk result (λ m.
        Gives (block_at image FIRST_MIRROR) (copied blocks superblock.now.bytes FIRST_MIRROR (block_at image FIRST_MIRROR)) m.first)) }
    ensures second { OverTold S.tells (S.blocks src.old) (λ image. IfOk result (λ m.
        Gives (block_at image SECOND_MIRROR) (copied blocks superblock.now.bytes SECOND_MIRROR (block_at image SECOND_MIRROR)) m.second)) }
    ensures room { IfOk result (HasMendingRoom (S.size src.old)) }
    ensures cause { HasCause (S.faults src.old) (S.faults src.new) result }
{
    let first = copy(src, superblock, FIRST_MIRROR, blocks)?;
    let second = copy(src, superblock, SECOND_MIRROR, blocks)?;
    Ok(Mending {
        format: Format::Btrfs,
        first,
        second,
    })
}

/// The zeros that are to be written to a block, where that is to become zeros.
fn wipe<S: BlockSource>(src: &mut S, used: &Bitmap, place: BlockNo) -> Result<Option<Block>, Fault>
    requires device { length used.now ≤ S.size src.old }
    requires small { place < 2 ^ 52 }
    ensures kept { S.kept src.old src.new }
    ensures gives { OverTold S.tells (S.blocks src.old) (λ image. IfOk result (Gives (block_at image place) (wiped (length used.now) used.now place (block_at image place)))) }
    ensures room { IfOk result (λ found. is_some found ≡ true → place < S.size src.old) }
    ensures cause { HasCause (S.faults src.old) (S.faults src.new) result }
{
    let wiped = is_wiped(src, used, place)?;
    if wiped {
        Ok(Some(Block::zero()))
    } else {
        Ok(None)
    }
}

/// The copy of a superblock that is to be written to its block, where it has its place on a Btrfs volume of so many blocks, which
/// holds anything else there.
fn copy<S: BlockSource>(
    src: &mut S,
    superblock: &Block,
    place: BlockNo,
    blocks: u64,
) -> Result<Option<Block>, Fault>
    requires device { blocks ≤ S.size src.old }
    requires small { place < 2 ^ 52 }
    ensures kept { S.kept src.old src.new }
    ensures gives { OverTold S.tells (S.blocks src.old) (λ image. IfOk result (Gives (block_at image place) (copied blocks superblock.now.bytes place (block_at image place)))) }
    ensures room { IfOk result (λ found. is_some found ≡ true → place < S.size src.old) }
    ensures cause { HasCause (S.faults src.old) (S.faults src.new) result }
{
    if place + 1 >= blocks {
        return Ok(None);
    }
    let mut copy = Block::zero();
    mirror(superblock, place, &mut copy);
    let mut block = Block::zero();
    src.read(place, &mut block)?;
    if block == copy {
        Ok(None)
    } else {
        Ok(Some(copy))
    }
}
