// Switches to a Btrfs superblock that a crash cuts.
ghost use Rattle.std.specs.Prelude.{◌≡◌, OnOk, Some};

use crate::disks::{Broken, filled, held, holds, put, see};
use btr_super::mirror;
use convert_steps::switch_to;
use outside::{Access, BlockSource, Disk};
use outside_mem::MemDisk;
use std::alloc::Global;
use std::test::*;
use vol_block::{Block, BlockNo};

/// The block of the first copy.
const COPY: BlockNo = 16384;

/// The first copy of a superblock of fours.
fn copy() -> Block {
    let mut copy = Block::zero();
    mirror(&filled(4), COPY, &mut copy);
    copy
}

/// Opens a disk; each call then fails behind so many writes, if any is to.
fn begin(disk: &mut MemDisk, stop: Option<u64>) -> Result<(), Broken>
    ensures { OnOk result (disk.new.opened ≡ Some Access.Write) }
{
    disk.settle();
    disk.open("", Access::Write)?;
    match stop {
        Some(writes) => {
            disk.stop_at_write(writes);
            Ok(())
        }
        None => Ok(()),
    }
}

/// Switches a volume of so many blocks to a superblock of fours: whether that is done, and how many writes there were.
fn switched(disk: &mut MemDisk, blocks: u64, stop: Option<u64>) -> Result<(bool, u64), Broken> {
    begin(disk, stop)?;
    if blocks <= 16 || blocks > disk.len() {
        return Err(Broken::Short(blocks));
    }
    let is_done = switch_to(disk, &filled(4), 20, blocks).is_ok();
    Ok((is_done, disk.writes()))
}

/// The blocks of a volume that has a copy of its superblock.
const BLOCKS: u64 = 16400;

/// A volume with ones in block 16 and zeros elsewhere.
fn old_volume(alloc: Global) -> Result<MemDisk, Broken> {
    let mut disk = MemDisk::new(alloc, BLOCKS)?;
    put(&mut disk, 16, &filled(1))?;
    Ok(disk)
}

/// What a crash by this choice leaves of a switch that stops behind so many writes; and whether that was done.
fn crashed(alloc: Global, writes: u64, choice: &[u32; 2]) -> Result<(MemDisk, bool), Broken> {
    let mut disk = old_volume(alloc)?;
    let (is_done, _) = switched(&mut disk, BLOCKS, Some(writes))?;
    Ok((disk.after_crash(choice)?, is_done))
}

/// Whether block 16 is the new superblock; whether its first 128 bytes are those of the old one; and whether the copy is there.
fn superblocks(disk: &mut MemDisk) -> Result<(bool, bool, bool), Broken> {
    let block = held(disk, 16)?;
    let is_old = block.bytes[..128] == [1; 128];
    Ok((block == filled(4), is_old, holds(disk, COPY, &copy())?))
}

/// Sees that a crash leaves the old superblock or the new one, and where the switch was done the new one and its copy; and another
/// block as it was.
fn is_left(alloc: Global, writes: u64, choice: &[u32; 2]) -> Result<(), Broken> {
    let (mut left, is_done) = crashed(alloc, writes, choice)?;
    see(
        is_done == (writes == 5),
        "the switch is done by five writes",
    )?;
    let (is_new, is_old, is_copied) = superblocks(&mut left)?;
    see(
        is_new || is_old && !is_copied,
        "the superblock is old or new",
    )?;
    see(
        !is_done || is_new && is_copied,
        "the superblock and its copy are new",
    )?;
    see(holds(&mut left, 5, &filled(0))?, "block 5 is as it was")
}

#[test]
fn a_crash_of_a_switch_leaves_the_old_superblock_or_the_new_one(
    rt: HostRuntime,
) -> Result<(), Broken> {
    for writes in 0..6 {
        for choice in &[[0, 0], [1, 0], [0, 1], [1, 1]] {
            is_left(rt.alloc(), writes, choice)?;
        }
    }
    Ok(())
}

/// The block of the first copy holds nines, on a volume of so many blocks; whether a switch leaves this there, and how many blocks it writes.
fn leaves(alloc: Global, blocks: u64, wanted: &Block) -> Result<(bool, u64), Broken> {
    let mut disk = MemDisk::new(alloc, blocks)?;
    put(&mut disk, COPY, &filled(9))?;
    let (is_done, writes) = switched(&mut disk, blocks, None)?;
    see(is_done, "the switch is done")?;
    Ok((holds(&mut disk, COPY, wanted)?, writes))
}

/// A volume whose last block is the one at 64 MiB has no copy, and the block is left as it is.
#[test]
fn a_copy_never_ends_with_the_volume(rt: HostRuntime) -> Result<(), Broken> {
    let last = leaves(rt.alloc(), 16385, &filled(9))?;
    see(last == (true, 3), "the last block is kept")?;
    let more = leaves(rt.alloc(), 16386, &copy())?;
    see(more == (true, 4), "the last block but one is written")
}
