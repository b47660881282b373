// The pieces that do not stay where they lie.
ghost use Rattle.std.specs.Prelude.{◌≡◌, ◌<◌, ◌^◌, ℕ, length, Contains, slice_get, slice_set, Some, IsTrue, IfSome, IfErr};
ghost use Rattle.std.specs.Result.{MatchResult};
ghost use Rattle.indexmap.specs.IndexMap.{keys};
ghost use Rattle.reiser_volume.specs.reiser_volume_contents.Answers.{IsFault, IsReadAnswer};
ghost use Rattle.command_answers.specs.outside.Fault.{HasCauseOf};
ghost use Rattle.command_answers.specs.outside.History.{Image, block_at, reads, OverTold, WritesOnly};
ghost use Rattle.reiser_volume.specs.reiser_volume_files.Bytes.{tail_block};
ghost use Rattle.reiser_volume.specs.reiser_volume_names.Names.{ino_of_key};
ghost use Rattle.reiser_volume.specs.reiser_volume_objects.Keys.{items_of};
ghost use Rattle.reiser_volume.specs.reiser_volume_objects.declared.key.ObjectKey.{ObjectKey as KeyOf};
ghost use Rattle.reiser_volume.specs.Made.{stat_at};
ghost use Rattle.reiser_volume.specs.Opened.{IsOpened};
ghost use Rattle.reiser_volume.specs.Volume.{IsAccepted, volume_items};
ghost use Rattle.convert_steps.specs.Moved.{CanMove, CanWrite, HasPlace, HoldMoved, HoldsPiece, IsMovedTo, IsMovedPlace};

use command_answers::{Access, Block, BlockNo, BlockSource, Disk, Rule, VolAnswer, VolumeRefusal};
use reiser_volume::{InodeNumbers, Volume};
use unit_plan::{Piece, PieceList};

/// Writes copies and tails to their places. No other block is written.
///
/// A refusal names a block that the device has no more, or that reads otherwise than when the volume was opened.
pub fn write_moved<D: Disk, P: PieceList>(
    disk: &mut D,
    volume: &Volume,
    pieces: &P,
) -> Result<(), VolAnswer>
    requires open { D.opened disk.old ≡ Some Access.Write }
    ensures open { D.opened disk.new ≡ D.opened disk.old }
    ensures size { D.size disk.new ≡ D.size disk.old }
    ensures borrow { D.borrow disk.new ≡ D.borrow disk.old }
    ensures only { IsTrue D.tells → WritesOnly (λ b _. IsMovedPlace (P.pieces pieces.now) b) (D.history disk.old) (D.history disk.new) }
    ensures written { OverTold D.tells (reads (D.history disk.old)) (λ image. CanMove volume.now image (P.pieces pieces.now) →
        MatchResult result (λ _. HoldMoved volume.now image (reads (D.history disk.new)) (P.pieces pieces.now)) IsFault) }
    ensures cause { HasCauseOf VolAnswer.Fault (D.faults disk.old) (D.faults disk.new) result }
    ensures answers { IfErr result IsReadAnswer }
{
    for i in 0..pieces.len() {
        write_piece(disk, volume, pieces.get(i))?;
    }
    Ok(())
}

/// Writes a piece to its place, unless it stays where it lies.
fn write_piece<D: Disk>(disk: &mut D, volume: &Volume, piece: &Piece) -> Result<(), VolAnswer>
    requires open { D.opened disk.old ≡ Some Access.Write }
    ensures open { D.opened disk.new ≡ D.opened disk.old }
    ensures size { D.size disk.new ≡ D.size disk.old }
    ensures borrow { D.borrow disk.new ≡ D.borrow disk.old }
    ensures only { IsTrue D.tells → WritesOnly (λ b _. IsMovedTo b piece.now) (D.history disk.old) (D.history disk.new) }
    ensures written { OverTold D.tells (reads (D.history disk.old)) (λ image. IsAccepted image → IsOpened volume.now image → CanWrite volume.now (D.size disk.old) piece.now →
        MatchResult result (λ _. HoldsPiece volume.now image (reads (D.history disk.new)) piece.now) IsFault) }
    ensures cause { HasCauseOf VolAnswer.Fault (D.faults disk.old) (D.faults disk.new) result }
    ensures answers { IfErr result IsReadAnswer }
{
    match (piece.from, piece.owner) {
        (None, Some((inode, at))) => write_tail(disk, volume, inode, at, piece.place),
        (None, None) => Ok(()),
        (Some(block), _) if block == piece.place => Ok(()),
        (Some(block), _) => copy_block(disk, block, piece.place),
    }
}

/// Copies a block to a place.
fn copy_block<D: Disk>(disk: &mut D, from: BlockNo, place: BlockNo) -> Result<(), VolAnswer>
    requires open { D.opened disk.old ≡ Some Access.Write }
    ensures open { D.opened disk.new ≡ D.opened disk.old }
    ensures size { D.size disk.new ≡ D.size disk.old }
    ensures borrow { D.borrow disk.new ≡ D.borrow disk.old }
    ensures only { IsTrue D.tells → WritesOnly (λ b _. b ≡ place) (D.history disk.old) (D.history disk.new) }
    ensures written { IsTrue D.tells → from < D.size disk.old → place < D.size disk.old →
        MatchResult result (λ _. reads (D.history disk.new) ≡ slice_set (reads (D.history disk.old)) place (block_at (reads (D.history disk.old)) from)) IsFault }
    ensures cause { HasCauseOf VolAnswer.Fault (D.faults disk.old) (D.faults disk.new) result }
    ensures answers { IfErr result IsReadAnswer }
{
    if from >= disk.len() {
        return Err(changed(from));
    }
    let mut block = Block::zero();
    disk.read(from, &mut block)?;
    put_block(disk, place, &block)
}

/// Writes a block that the device has to have.
fn put_block<D: Disk>(disk: &mut D, place: BlockNo, block: &Block) -> Result<(), VolAnswer>
    requires open { D.opened disk.old ≡ Some Access.Write }
    ensures open { D.opened disk.new ≡ D.opened disk.old }
    ensures size { D.size disk.new ≡ D.size disk.old }
    ensures borrow { D.borrow disk.new ≡ D.borrow disk.old }
    ensures only { IsTrue D.tells → WritesOnly (λ b _. b ≡ place) (D.history disk.old) (D.history disk.new) }
    ensures written { IsTrue D.tells → place < D.size disk.old → MatchResult result (λ _. reads (D.history disk.new) ≡ slice_set (reads (D.history disk.old)) place block.now.bytes) IsFault }
    ensures cause { HasCauseOf VolAnswer.Fault (D.faults disk.old) (D.faults disk.new) result }
    ensures answers { IfErr result IsReadAnswer }
{
    if place >= disk.len() {
        return Err(changed(place));
    }
    disk.write(place, block)?;
    Ok(())
}

/// Writes block `at` of a file that lies in direct items to a place.
fn write_tail<D: Disk>(
    disk: &mut D,
    volume: &Volume,
    inode: u64,
    at: u64,
    place: BlockNo,
) -> Result<(), VolAnswer>
    requires open { D.opened disk.old ≡ Some Access.Write }
    ensures open { D.opened disk.new ≡ D.opened disk.old }
    ensures size { D.size disk.new ≡ D.size disk.old }
    ensures borrow { D.borrow disk.new ≡ D.borrow disk.old }
    ensures only { IsTrue D.tells → WritesOnly (λ b _. b ≡ place) (D.history disk.old) (D.history disk.new) }
    ensures written { OverTold D.tells (reads (D.history disk.old)) (λ image. IsAccepted image → IsOpened volume.now image → place < D.size disk.old → at < 2 ^ 52 → (key : KeyOf) → Contains (keys volume.now.named) key → inode ≡ ino_of_key (keys volume.now.named) key →
        MatchResult result (λ _. reads (D.history disk.new) ≡ slice_set image place (tail_block (items_of key (volume_items image)) (stat_at (volume_items image) key).fields.size at)) IsFault) }
    ensures cause { HasCauseOf VolAnswer.Fault (D.faults disk.old) (D.faults disk.new) result }
    ensures answers { IfErr result IsReadAnswer }
{
    let Some(object) = place_of(volume, inode) else {
        return Err(changed(volume.sup().root));
    };
    if at >= 1 << 52 {
        return Err(changed(volume.sup().root));
    }
    let mut block = Block::zero();
    volume.tail(disk, object, at, &mut block)?;
    put_block(disk, place, &block)
}

/// The place of the object that has an inode number, where there is one.
fn place_of(volume: &Volume, inode: u64) -> Option<usize>
    ensures within { IfSome result (λ i. i < length (keys volume.now.named)) }
    ensures named { (image : Image) → IsAccepted image → IsOpened volume.now image → (key : KeyOf) → Contains (keys volume.now.named) key → inode ≡ ino_of_key (keys volume.now.named) key → HasPlace (keys volume.now.named) key result }
{
    let n = inode.checked_sub(256)? as usize;
    if n >= volume.count() {
        return None;
    }
    Some(InodeNumbers::new(volume).place(n))
}

/// What is answered where the device has not what it had when the volume was opened.
fn changed(block: BlockNo) -> VolAnswer
    ensures answer { IsReadAnswer result }
    ensures no_fault { ¬ (result ≡ VolAnswer.Fault) }
{
    VolAnswer::Refused(VolumeRefusal::Damaged {
        block,
        rule: Rule::Reread,
    })
}
