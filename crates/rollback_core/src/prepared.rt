// What is read and decided before the first write.
ghost use Rattle.std.specs.Prelude.{◌≡◌, ◌⊎◌, ℕ, IfErr, IfOk};
ghost use Rattle.std.specs.Result.{MatchResult};
ghost use Rattle.reiser_bitmap.specs.outside.Fault.{HasCauseOf};
ghost use Rattle.reiser_bitmap.specs.outside.History.{Image, OverTold};
ghost use Rattle.volume_state.specs.Saved.{image_blocks};
ghost use Rattle.volume_state.specs.GoingBack.{CanGoBack, old_used};
ghost use Rattle.volume_state.specs.Using.{IsInUse, TellsReserved};
ghost use Rattle.reiser_volume.specs.Volume.{superblock};
ghost use Rattle.rollback_core.specs.RollbackAnswers.{HasPlaces, HasVolume, IsRollbackAnswer, RefusesRollback};
ghost use Rattle.rollback_core.specs.Opened.{IsBtrfsOn, IsMapOn, IsOldOf, IsOpenedOn, LiesWithin};
ghost use Rattle.rollback_core.specs.Prepared.{IsWayBack};
ghost use Rattle.rollback_core.specs.Writing.{AreWritesApart, HasRoom};

use crate::answers::{changed, image_answer};
use crate::saved::{count_reserved, read_block, read_reserved};
use crate::wiping::wipe_both;
use crate::{RollbackSummary, WayBack};
use btr_reader::btr_super::Super;
use btr_reader::btrfs_format::block::SUPER_BLOCK;
use btr_reader::{Btrfs, ImageMap};
use convert_steps::{Answer, find_format};
use reiser_bitmap::{Bitmap, Block, BlockNo, BlockSource, BtrRefusal, Format, VolumeRefusal};
use reiser_volume::Volume;
use std::alloc::Global;
use volume_state::{ImageSource, Reserved, Way, image_moved, read_way, reserved_used};

/// Reads the Btrfs volume of a disk and the volume in its saved image, and says what is to be written to have that back. Nothing is
/// written.
///
/// It is refused, in this order: where the disk has no volume, or a ReiserFS one; where something is wrong with the superblock; where
/// there is a log tree; where something is wrong with the chunks, the root tree or what lies on the way to the image; where the image is
/// missing; where the volume in it is refused; where a block of that was moved; and where the Btrfs volume uses a reserved block. Of the
/// file tree all nodes are looked at, and in them the names of the root directory and where extents lie. What else its bodies hold stands
/// in no one's way.
pub fn prepare<S: BlockSource>(alloc: Global, src: &mut S) -> Result<WayBack, Answer>
    ensures kept { S.kept src.old src.new }
    ensures prepared { OverTold S.tells (S.blocks src.old) (λ disk. MatchResult result (IsWayBack disk) (RefusesRollback disk)) }
    ensures room { IfOk result (HasRoom (S.size src.old)) }
    ensures apart { IfOk result AreWritesApart }
    ensures cause { HasCauseOf Answer.Fault (S.faults src.old) (S.faults src.new) result }
    ensures answers { IfErr result IsRollbackAnswer }
{
    let block = find_superblock(src)?;
    let volume = open_volume(alloc, src, &block)?;
    let found = find_image(alloc, src, &volume)?;
    prepare_old(alloc, src, &volume, &found)
}

/// The saved image that was found, and what was noted on the way to it.
#[derive(Drop)]
struct ImageFound {
    map: ImageMap,
    /// A reserved block in use.
    reserved: Reserved,
}

/// The same from the saved image on, which was found.
fn prepare_old<S: BlockSource>(
    alloc: Global,
    src: &mut S,
    volume: &Btrfs,
    found: &ImageFound,
) -> Result<WayBack, Answer>
    requires device { found.now.map.device ≡ S.size src.old }
    ensures kept { S.kept src.old src.new }
    ensures prepared { OverTold S.tells (S.blocks src.old) (λ disk. IsOpenedOn disk volume.now → IsMapOn disk found.now.map → TellsReserved (IsInUse disk) found.now.reserved.blocks found.now.reserved.used → MatchResult result (IsWayBack disk) (RefusesRollback disk)) }
    ensures room { IfOk result (HasRoom (S.size src.old)) }
    ensures apart { IfOk result AreWritesApart }
    ensures cause { HasCauseOf Answer.Fault (S.faults src.old) (S.faults src.new) result }
    ensures answers { IfErr result IsRollbackAnswer }
{
    let map = &found.map;
    let old = open_old(alloc, src, map)?;
    check_places(map, old.bitmap())?;
    check_reserved(alloc, src, volume, &found.reserved, old.bitmap().len())?;
    plan(alloc, src, map, old.bitmap())
}

/// Block 16 of a disk that has a Btrfs volume.
fn find_superblock<S: BlockSource>(src: &mut S) -> Result<Block, Answer>
    ensures kept { S.kept src.old src.new }
    ensures found { OverTold S.tells (S.blocks src.old) (λ disk. MatchResult result (IsBtrfsOn disk) (RefusesRollback disk)) }
    ensures cause { HasCauseOf Answer.Fault (S.faults src.old) (S.faults src.new) result }
    ensures answers { IfErr result IsRollbackAnswer }
{
    let found = find_format(src)?;
    match found.format {
        Format::Btrfs => Ok(found.block),
        Format::Reiser => Err(Answer::WrongFormat),
        Format::Neither => Err(Answer::Volume(VolumeRefusal::NotVolume)),
    }
}

/// Opens the Btrfs volume with this superblock, where that names no log tree.
fn open_volume<S: BlockSource>(alloc: Global, src: &mut S, block: &Block) -> Result<Btrfs, Answer>
    ensures kept { S.kept src.old src.new }
    ensures opened { OverTold S.tells (S.blocks src.old) (λ disk. IsBtrfsOn disk block.now → MatchResult result (IsOpenedOn disk) (RefusesRollback disk)) }
    ensures cause { HasCauseOf Answer.Fault (S.faults src.old) (S.faults src.new) result }
    ensures answers { IfErr result IsRollbackAnswer }
{
    let sup = Super::read(block, SUPER_BLOCK, src.len())?;
    if sup.log_root != 0 {
        return Err(Answer::Btr(BtrRefusal::LogPending {
            address: sup.log_root,
        }));
    }
    Ok(Btrfs::open_by(alloc, src, block)?)
}

/// Finds the saved image.
fn find_image<S: BlockSource>(
    alloc: Global,
    src: &mut S,
    volume: &Btrfs,
) -> Result<ImageFound, Answer>
    ensures kept { S.kept src.old src.new }
    ensures device { IfOk result (λ found. found.map.device ≡ S.size src.old) }
    ensures read { OverTold S.tells (S.blocks src.old) (λ disk. IsOpenedOn disk volume.now → MatchResult result (λ found. IsMapOn disk found.map) (RefusesRollback disk)) }
    ensures reserved { OverTold S.tells (S.blocks src.old) (λ disk. IsOpenedOn disk volume.now → IfOk result (λ found. TellsReserved (IsInUse disk) found.reserved.blocks found.reserved.used)) }
    ensures cause { HasCauseOf Answer.Fault (S.faults src.old) (S.faults src.new) result }
    ensures answers { IfErr result IsRollbackAnswer }
{
    let way = read_way(alloc, volume, src)?;
    let Way { map, reserved } = way;
    match map {
        Some(map) => Ok(ImageFound { map, reserved }),
        None => Err(Answer::ImageMissing),
    }
}

/// Opens the volume in the saved image. It lies within the image, whatever the disk gives.
fn open_old<S: BlockSource>(alloc: Global, src: &mut S, map: &ImageMap) -> Result<Volume, Answer>
    requires device { map.now.device ≡ S.size src.old }
    ensures kept { S.kept src.old src.new }
    ensures inside { IfOk result (λ old. LiesWithin old.bitmap map.now (S.size src.old)) }
    ensures opened { OverTold S.tells (S.blocks src.old) (λ disk. IsMapOn disk map.now → MatchResult result (IsOldOf disk) (RefusesRollback disk)) }
    ensures cause { HasCauseOf Answer.Fault (S.faults src.old) (S.faults src.new) result }
    ensures answers { IfErr result IsRollbackAnswer }
{
    let mut image = ImageSource::new(src, map);
    let old = match Volume::open(alloc, &mut image) {
        Ok(old) => old,
        Err(answer) => return Err(image_answer(answer)),
    };
    let blocks = old.bitmap().len();
    if blocks <= SUPER_BLOCK || blocks > image.len() {
        return Err(changed());
    }
    Ok(old)
}

/// Whether each block of the old volume lies in its place.
fn check_places(map: &ImageMap, used: &Bitmap) -> Result<(), Answer>
    ensures checked { (disk : Image) → IsMapOn disk map.now → HasVolume disk → used.now ≡ old_used disk → MatchResult result (λ _. HasPlaces disk) (RefusesRollback disk) }
    ensures answers { IfErr result (λ e. (b : ℕ) × (e ≡ Answer.ImageMoved b)) }
{
    match image_moved(map, used) {
        None => Ok(()),
        Some(block) => Err(Answer::ImageMoved { block }),
    }
}

/// Whether the Btrfs volume leaves alone what is reserved on the old volume, which has so many blocks. The trees are gone through once
/// more only where the length that was thought of tells nothing of this one.
fn check_reserved<S: BlockSource>(
    alloc: Global,
    src: &mut S,
    volume: &Btrfs,
    reserved: &Reserved,
    blocks: u64,
) -> Result<(), Answer>
    ensures kept { S.kept src.old src.new }
    ensures told { OverTold S.tells (S.blocks src.old) (λ disk. IsOpenedOn disk volume.now → TellsReserved (IsInUse disk) reserved.now.blocks reserved.now.used → HasPlaces disk → blocks ≡ (superblock (image_blocks disk)).blocks →
        MatchResult result (λ _. CanGoBack disk) (RefusesRollback disk)) }
    ensures cause { HasCauseOf Answer.Fault (S.faults src.old) (S.faults src.new) result }
    ensures answers { IfErr result IsRollbackAnswer }
{
    if reserved.holds_of(blocks) {
        return refuse_used(reserved.used);
    }
    refuse_used(reserved_used(alloc, volume, src, blocks)?)
}

/// The answer where a reserved block is in use.
fn refuse_used(used: Option<BlockNo>) -> Result<(), Answer>
    ensures told { (disk : Image) → HasPlaces disk → TellsReserved (IsInUse disk) (superblock (image_blocks disk)).blocks used → MatchResult result (λ _. CanGoBack disk) (RefusesRollback disk) }
    ensures answers { IfErr result (λ e. (b : ℕ) × (e ≡ Answer.ReservedUsed b)) }
{
    match used {
        None => Ok(()),
        Some(block) => Err(Answer::ReservedUsed { block }),
    }
}

/// What is to be written, where nothing stands in the way.
fn plan<S: BlockSource>(
    alloc: Global,
    src: &mut S,
    map: &ImageMap,
    used: &Bitmap,
) -> Result<WayBack, Answer>
    requires device { map.now.device ≡ S.size src.old }
    requires inside { LiesWithin used.now map.now (S.size src.old) }
    ensures kept { S.kept src.old src.new }
    ensures planned { OverTold S.tells (S.blocks src.old) (λ disk. IsMapOn disk map.now → CanGoBack disk → used.now ≡ old_used disk →
        MatchResult result (IsWayBack disk) (RefusesRollback disk)) }
    ensures room { IfOk result (HasRoom (S.size src.old)) }
    ensures apart { IfOk result AreWritesApart }
    ensures cause { HasCauseOf Answer.Fault (S.faults src.old) (S.faults src.new) result }
    ensures answers { IfErr result (λ e. (e ≡ Answer.Fault) ⊎ (e ≡ Answer.Memory)) }
{
    let (first, second) = wipe_both(src, used)?;
    let copy = map.place(SUPER_BLOCK).unwrap_or(SUPER_BLOCK);
    let mut image = ImageSource::new(src, map);
    let superblock = read_block(&mut image, SUPER_BLOCK)?;
    let reserved = match read_reserved(alloc, &mut image, used) {
        Ok(saved) => saved,
        Err(answer) => return Err(image_answer(answer)),
    };
    Ok(WayBack {
        reserved,
        superblock,
        copy,
        first,
        second,
        summary: RollbackSummary {
            blocks: used.used(),
            restored: count_reserved(used),
        },
    })
}
