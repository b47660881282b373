// Block 16 is turned from one format to the other.
ghost use Rattle.std.specs.Prelude.{◌≡◌, ◌⊎◌, ◌<◌, Some, IsTrue, OnOk};
ghost use Rattle.outside.specs.Fault.{HasCause};
ghost use Rattle.outside.specs.History.{EachCrash, IsSettled, block_at, reads};
ghost use Rattle.outside.specs.Writes.{Writes};
ghost use Rattle.super_turn.specs.Turned.{IsTurning, StandsWith};

use crate::mark::{marked, with_first};
use crate::steps::{read_block, turn_three};
use outside::btrfs_format::block::SUPER_BLOCK;
use outside::{Access, Block, BlockNo, Disk, Fault};

/// Turns block 16 from the superblock of ReiserFS that it holds, of which a copy lies in block `place`, to one of Btrfs.
///
/// The mark changes the first sector alone; then the other sectors become those of the new superblock, while the first one is still that of
/// ReiserFS; then the first one follows. So a crash at any moment leaves one of the two superblocks, or the first sector of the old one with the
/// mark.
pub fn to_btrfs<D: Disk>(disk: &mut D, place: BlockNo, superblock: &Block) -> Result<(), Fault>
    requires open { D.opened disk.old ≡ Some Access.Write }
    requires in_range { 16 < D.size disk.old }
    ensures crash { EachCrash D.tells (D.history disk.old) (D.history disk.new) (λ image. (image ≡ reads (D.history disk.old))
        ⊎ IsTurning (block_at (reads (D.history disk.old)) 16) place superblock.now.bytes (reads (D.history disk.old)) image) }
    ensures writes { Writes D.Disk (λ b _. b ≡ 16) disk.old disk.new }
    ensures written { IsTrue D.tells → OnOk result (StandsWith superblock.now.bytes (reads (D.history disk.old)) (reads (D.history disk.new))) }
    ensures settled { IsTrue D.tells → OnOk result (IsSettled (D.history disk.new)) }
    ensures cause { HasCause (D.faults disk.old) (D.faults disk.new) result }
{
    let before = read_block(disk, SUPER_BLOCK)?;
    let turned = marked(&before, place);
    let joined = with_first(&turned, superblock);
    turn_three(disk, &turned, &joined, superblock)
}

/// Turns block 16 from a superblock of Btrfs to this one of ReiserFS, of which a copy lies in block `place`: the same three writes the other way.
pub fn to_reiser<D: Disk>(disk: &mut D, place: BlockNo, superblock: &Block) -> Result<(), Fault>
    requires open { D.opened disk.old ≡ Some Access.Write }
    requires in_range { 16 < D.size disk.old }
    ensures crash { EachCrash D.tells (D.history disk.old) (D.history disk.new) (λ image. (image ≡ reads (D.history disk.old))
        ⊎ IsTurning superblock.now.bytes place (block_at (reads (D.history disk.old)) 16) (reads (D.history disk.old)) image) }
    ensures writes { Writes D.Disk (λ b _. b ≡ 16) disk.old disk.new }
    ensures written { IsTrue D.tells → OnOk result (StandsWith superblock.now.bytes (reads (D.history disk.old)) (reads (D.history disk.new))) }
    ensures settled { IsTrue D.tells → OnOk result (IsSettled (D.history disk.new)) }
    ensures cause { HasCause (D.faults disk.old) (D.faults disk.new) result }
{
    let before = read_block(disk, SUPER_BLOCK)?;
    let turned = marked(superblock, place);
    let joined = with_first(&turned, &before);
    turn_three(disk, &joined, &turned, superblock)
}
