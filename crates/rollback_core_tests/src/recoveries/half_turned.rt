// Recoveries of a ReiserFS volume whose block 16 is half turned.
use super::stopped::cut;
use super::{BLOCKS, Ended, recovered};
use crate::disks::{Broken, held, holds, put, reiser, see};
use outside_mem::MemDisk;
use rollback_core::RecoverSummary;
use std::alloc::Global;
use std::test::*;
use vol_block::{Block, BlockNo, Format};

/// A block that no volume here uses, for the superblock that a mark names.
const KEPT: BlockNo = 900;

/// The first sector of a superblock, with a mark that names the block where it is kept, and fives in the other sectors.
fn half_of(before: &Block) -> Block {
    let mut half = Block {
        bytes: before.bytes,
    };
    half.bytes[128..144].copy_from_slice(b"reiserconv turns");
    half.bytes[144..152].copy_from_slice(&KEPT.to_le_bytes());
    for i in 512..4096 {
        half.bytes[i] = 5;
    }
    half
}

/// A ReiserFS volume whose block 16 is half turned, by a mark that names the block where the superblock lies as it was. And that superblock.
fn half_turned(alloc: Global) -> Result<(MemDisk, Block), Broken> {
    let mut disk = reiser(alloc, BLOCKS)?;
    let before = held(&mut disk, 16)?;
    put(&mut disk, KEPT, &before)?;
    put(&mut disk, 16, &half_of(&before))?;
    Ok((disk, before))
}

/// How a recovery ends that writes block 16 so often, and no copy.
fn told(writes: u64) -> Ended {
    let whole = RecoverSummary {
        format: Format::Reiser,
        mirrors: 0,
    };
    (Ok(whole), writes)
}

/// How a recovery ends, and another one behind it; and whether block 16 is this one behind each.
fn twice(alloc: Global, disk: &mut MemDisk, before: &Block) -> Result<([Ended; 2], bool), Broken> {
    let first = recovered(alloc, disk)?;
    let is_back = holds(disk, 16, before)?;
    let second = recovered(alloc, disk)?;
    let is_kept = holds(disk, 16, before)?;
    Ok(([first, second], is_back && is_kept))
}

/// Block 16 becomes the superblock that its mark names, whatever its other sectors hold, in two writes.
#[test]
fn a_half_turned_superblock_is_put_back(rt: HostRuntime) -> Result<(), Broken> {
    let (mut disk, before) = half_turned(rt.alloc())?;
    let ended = twice(rt.alloc(), &mut disk, &before)?;
    see(ended == ([told(2), told(0)], true), "block 16 is back")
}

/// A recovery that stops behind this write while it puts block 16 back leaves what the next one puts back, whatever a crash chooses.
fn is_put_back(alloc: Global, base: &MemDisk, writes: u64, before: &Block) -> Result<(), Broken> {
    for choice in [0, 1] {
        let mut left = cut(alloc, base, writes, choice)?;
        let (answer, _) = recovered(alloc, &mut left)?;
        see(answer.is_ok(), "the next recovery is done")?;
        see(holds(&mut left, 16, before)?, "block 16 is back")?;
    }
    Ok(())
}

#[test]
fn a_crash_of_putting_back_is_put_back(rt: HostRuntime) -> Result<(), Broken> {
    let (base, before) = half_turned(rt.alloc())?;
    for writes in 1..3 {
        is_put_back(rt.alloc(), &base, writes, &before)?;
    }
    Ok(())
}

/// A half turned volume whose mark names another block than the superblock as it was.
fn astray(alloc: Global) -> Result<(MemDisk, Block), Broken> {
    let (mut disk, before) = half_turned(alloc)?;
    let half = held(&mut disk, 16)?;
    let mut other = before;
    other.bytes[511] ^= 1;
    put(&mut disk, KEPT, &other)?;
    Ok((disk, half))
}

/// A mark leads nowhere where the block that it names is another one; block 16 stays as it is.
#[test]
fn a_mark_without_a_copy_is_left_alone(rt: HostRuntime) -> Result<(), Broken> {
    let (mut disk, half) = astray(rt.alloc())?;
    let (answer, writes) = recovered(rt.alloc(), &mut disk)?;
    see(answer.is_ok() && writes == 0, "nothing is written")?;
    see(holds(&mut disk, 16, &half)?, "block 16 is as it was")
}
