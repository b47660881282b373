// The switch to the new format.
ghost use Rattle.std.specs.Prelude.{◌≡◌, ◌≤◌, ◌<◌, ◌+◌, ◌^◌, Some, IsTrue, OnOk};
ghost use Rattle.command_answers.specs.outside.Fault.{HasCause};
ghost use Rattle.command_answers.specs.outside.History.{block_at, reads, IsSettled, EachCrash, WritesOnly};
ghost use Rattle.btr_super.specs.Super.{mirror_bytes};
ghost use Rattle.convert_steps.specs.Switch.{IsMirror, IsSwitchPart, IsCopy, IsCopyAt, IsLeftBySwitch, IsSwitched, HasCopies, mirror_places, on_volume};

use btr_super::btrfs_format::block::{FIRST_MIRROR, SECOND_MIRROR};
use btr_super::mirror;
use command_answers::{Access, Block, BlockNo, Disk, Fault};
use super_turn::to_btrfs;

/// The blocks of the copies of a Btrfs superblock, each where a volume of so many blocks has it. A copy never ends with the
/// volume: Linux writes none there.
pub fn mirror_places(blocks: u64) -> [Option<BlockNo>; 2]
    ensures { result ≡ mirror_places blocks }
{
    [
        on_volume(FIRST_MIRROR, blocks),
        on_volume(SECOND_MIRROR, blocks),
    ]
}

/// A block, where a volume of so many blocks has it and more behind it.
fn on_volume(block: BlockNo, blocks: u64) -> Option<BlockNo>
    requires { block < 2 ^ 52 }
    ensures { result ≡ on_volume blocks block }
{
    if block + 1 < blocks {
        Some(block)
    } else {
        None
    }
}

/// Turns block 16 to a Btrfs superblock, and then writes its copies, on a volume of so many blocks. A copy of the old block 16 lies in block
/// `place`. Each step is on the disk before the next begins.
///
/// A crash at any moment leaves the disk as it was, half turned, so that block 16 can be put back, or with this superblock and some of its copies.
pub fn switch_to<D: Disk>(
    disk: &mut D,
    superblock: &Block,
    place: BlockNo,
    blocks: u64,
) -> Result<(), Fault>
    requires open { D.opened disk.old ≡ Some Access.Write }
    requires room { 16 < blocks }
    requires in_range { blocks ≤ D.size disk.old }
    ensures crash { EachCrash D.tells (D.history disk.old) (D.history disk.new) (IsLeftBySwitch place superblock.now.bytes blocks (reads (D.history disk.old))) }
    ensures open { D.opened disk.new ≡ D.opened disk.old }
    ensures size { D.size disk.new ≡ D.size disk.old }
    ensures borrow { D.borrow disk.new ≡ D.borrow disk.old }
    ensures only { IsTrue D.tells → WritesOnly (IsSwitchPart superblock.now.bytes blocks) (D.history disk.old) (D.history disk.new) }
    ensures written { IsTrue D.tells → OnOk result (IsSwitched superblock.now.bytes blocks (reads (D.history disk.old)) (reads (D.history disk.new))) }
    ensures copies { IsTrue D.tells → OnOk result (HasCopies superblock.now.bytes blocks (reads (D.history disk.new))) }
    ensures settled { IsTrue D.tells → OnOk result (IsSettled (D.history disk.new)) }
    ensures cause { HasCause (D.faults disk.old) (D.faults disk.new) result }
{
    to_btrfs(disk, place, superblock)?;
    write_copies(disk, superblock, blocks)
}

/// Writes the copies of a superblock to their blocks, where the volume has them, and syncs.
fn write_copies<D: Disk>(disk: &mut D, superblock: &Block, blocks: u64) -> Result<(), Fault>
    requires open { D.opened disk.old ≡ Some Access.Write }
    requires in_range { blocks ≤ D.size disk.old }
    ensures open { D.opened disk.new ≡ D.opened disk.old }
    ensures size { D.size disk.new ≡ D.size disk.old }
    ensures borrow { D.borrow disk.new ≡ D.borrow disk.old }
    ensures only { IsTrue D.tells → WritesOnly (IsCopy superblock.now.bytes blocks) (D.history disk.old) (D.history disk.new) }
    ensures written { IsTrue D.tells → OnOk result (HasCopies superblock.now.bytes blocks (reads (D.history disk.new))) }
    ensures settled { IsTrue D.tells → OnOk result (IsSettled (D.history disk.new)) }
    ensures cause { HasCause (D.faults disk.old) (D.faults disk.new) result }
{
    write_copy(disk, superblock, FIRST_MIRROR, blocks)?;
    write_copy(disk, superblock, SECOND_MIRROR, blocks)?;
    disk.sync()
}

/// Writes a copy of a superblock to its block, where a volume of so many blocks has it.
fn write_copy<D: Disk>(
    disk: &mut D,
    superblock: &Block,
    place: BlockNo,
    blocks: u64,
) -> Result<(), Fault>
    requires open { D.opened disk.old ≡ Some Access.Write }
    requires in_range { blocks ≤ D.size disk.old }
    requires mirror { IsMirror place }
    requires small { place < 2 ^ 52 }
    ensures open { D.opened disk.new ≡ D.opened disk.old }
    ensures size { D.size disk.new ≡ D.size disk.old }
    ensures borrow { D.borrow disk.new ≡ D.borrow disk.old }
    ensures only { IsTrue D.tells → WritesOnly (IsCopyAt place superblock.now.bytes blocks) (D.history disk.old) (D.history disk.new) }
    ensures written { IsTrue D.tells → OnOk result (place + 1 < blocks → block_at (reads (D.history disk.new)) place ≡ mirror_bytes place superblock.now.bytes) }
    ensures cause { HasCause (D.faults disk.old) (D.faults disk.new) result }
{
    if place + 1 >= blocks {
        return Ok(());
    }
    let mut copy = Block::zero();
    mirror(superblock, place, &mut copy);
    disk.write(place, &copy)
}
