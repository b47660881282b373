// The old volume is written back.
ghost use Rattle.std.specs.Prelude.{◌≡◌, ◌⊎◌, ◌<◌, true, All, Some, IsTrue, OnOk};
ghost use Rattle.reiser_bitmap.specs.outside.Fault.{HasCause};
ghost use Rattle.reiser_bitmap.specs.outside.History.{EachCrash, IsBlock, IsSettled, block_at, reads};
ghost use Rattle.reiser_bitmap.specs.outside.Writes.{Writes};
ghost use Rattle.reiser_bitmap.specs.vol_block.Volume.{zeros};
ghost use Rattle.rollback_core.specs.Writing.{AreWritesApart, AreWiped, AreWrittenBack, GoApart, HasRoom, IsWayBackPart, IsHalfway, IsSavedPlace, IsTurned, IsUnturned, IsWiping};

use crate::way::{Saved, WayBack};
use btr_reader::btrfs_format::block::{FIRST_MIRROR, SECOND_MIRROR};
use reiser_bitmap::{Access, Block, BlockNo, Disk, Fault};
use super_turn::to_reiser;

/// Writes the old volume back, in three steps, each of which is on the disk before the next begins: its reserved blocks, then block 16,
/// and then zeros over copies of the Btrfs superblock.
///
/// A crash at any moment leaves the disk as it was but for the reserved blocks; or all of them stand, and block 16 too, or half turned.
pub fn write_back<D: Disk>(disk: &mut D, way: &WayBack) -> Result<(), Fault>
    requires open { D.opened disk.old ≡ Some Access.Write }
    requires room { HasRoom (D.size disk.old) way.now }
    requires apart { AreWritesApart way.now }
    ensures crash { EachCrash D.tells (D.history disk.old) (D.history disk.new) (λ image.
        IsUnturned way.now (reads (D.history disk.old)) image
        ⊎ (IsHalfway way.now (reads (D.history disk.old)) image ⊎ IsTurned way.now (reads (D.history disk.old)) image)) }
    ensures writes { Writes D.Disk (IsWayBackPart way.now) disk.old disk.new }
    ensures written { IsTrue D.tells → OnOk result (IsTurned way.now (reads (D.history disk.old)) (reads (D.history disk.new))) }
    ensures wiped { IsTrue D.tells → OnOk result (AreWiped way.now (reads (D.history disk.new))) }
    ensures settled { IsTrue D.tells → OnOk result (IsSettled (D.history disk.new)) }
    ensures cause { HasCause (D.faults disk.old) (D.faults disk.new) result }
{
    write_reserved(disk, way.reserved.as_slice())?;
    to_reiser(disk, way.copy, &way.superblock)?;
    wipe_copies(disk, way)
}

/// Writes blocks to their places, and syncs.
fn write_reserved<D: Disk>(disk: &mut D, saved: &[Saved]) -> Result<(), Fault>
    requires open { D.opened disk.old ≡ Some Access.Write }
    requires in_range { All (λ s. s.at < D.size disk.old) saved.now }
    requires apart { GoApart saved.now }
    ensures writes { Writes D.Disk (λ b _. IsSavedPlace saved.now b) disk.old disk.new }
    ensures written { IsTrue D.tells → OnOk result (AreWrittenBack saved.now (reads (D.history disk.new))) }
    ensures settled { IsTrue D.tells → OnOk result (IsSettled (D.history disk.new)) }
    ensures cause { HasCause (D.faults disk.old) (D.faults disk.new) result }
{
    for block in saved {
        disk.write(block.at, &block.block)?;
    }
    disk.sync()
}

/// Writes zeros to the blocks of copies that are to become zeros, and syncs.
fn wipe_copies<D: Disk>(disk: &mut D, way: &WayBack) -> Result<(), Fault>
    requires open { D.opened disk.old ≡ Some Access.Write }
    requires room { HasRoom (D.size disk.old) way.now }
    ensures writes { Writes D.Disk (IsWiping way.now) disk.old disk.new }
    ensures written { IsTrue D.tells → OnOk result (AreWiped way.now (reads (D.history disk.new))) }
    ensures settled { IsTrue D.tells → OnOk result (IsSettled (D.history disk.new)) }
    ensures cause { HasCause (D.faults disk.old) (D.faults disk.new) result }
{
    wipe_if(disk, way.first, FIRST_MIRROR)?;
    wipe_if(disk, way.second, SECOND_MIRROR)?;
    disk.sync()
}

/// Writes zeros to a block, where it is to become zeros.
fn wipe_if<D: Disk>(disk: &mut D, wiped: bool, place: BlockNo) -> Result<(), Fault>
    requires open { D.opened disk.old ≡ Some Access.Write }
    requires room { wiped ≡ true → place < D.size disk.old }
    ensures writes { Writes D.Disk (λ b bytes. (wiped ≡ true) × IsBlock place zeros b bytes) disk.old disk.new }
    ensures written { IsTrue D.tells → OnOk result (wiped ≡ true → block_at (reads (D.history disk.new)) place ≡ zeros) }
    ensures cause { HasCause (D.faults disk.old) (D.faults disk.new) result }
{
    if !wiped {
        return Ok(());
    }
    disk.write(place, &Block::zero())
}
