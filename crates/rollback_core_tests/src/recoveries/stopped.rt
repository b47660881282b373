// Recoveries that are stopped behind one of their writes, and what crashes leave then.
use super::{
    BLOCKS, BTRFS, COPY, Case, Ended, Held, REISER, Trouble, btrfs, copy_of, recovered, recovers,
    recovery, superblock, told,
};
use crate::disks::{Broken, filled, holds, put, see};
use btrfs_format::block::SECOND_MIRROR_END;
use command_answers::Answer;
use outside_mem::MemDisk;
use std::alloc::Global;
use std::test::*;
use vol_block::{Block, Format};

/// What is answered where a recovery of a copy of this disk is stopped behind so many writes, and what a crash then leaves by a choice.
/// A superblock may wait before.
pub fn stopped(
    alloc: Global,
    base: &MemDisk,
    waiting: Option<&Block>,
    writes: u64,
    choice: &[u32],
) -> Result<(Option<Answer>, MemDisk), Broken> {
    let mut disk = base.after_crash(&[])?;
    let (answer, _) = recovery(alloc, &mut disk, waiting, Trouble::Stop(writes))?;
    Ok((answer.err(), disk.after_crash(choice)?))
}

/// What a crash by this choice leaves of a recovery that is stopped behind so many writes, and has to be.
pub fn cut(alloc: Global, base: &MemDisk, writes: u64, choice: u32) -> Result<MemDisk, Broken> {
    let (answer, left) = stopped(alloc, base, None, writes, &[choice])?;
    see(answer == Some(Answer::Fault), "a stop is a fault")?;
    Ok(left)
}

/// A crash behind the write of block 16 leaves the block of the copy as it was.
fn keeps_copy(alloc: Global, base: &MemDisk, old: &Block) -> Result<(), Broken> {
    for choice in [0, 1] {
        let mut left = cut(alloc, base, 1, choice)?;
        see(holds(&mut left, COPY, old)?, "the copy is as it was")?;
    }
    Ok(())
}

/// A crash by this choice behind the write of the copy's block leaves this there, and so many copies to write for the next recovery.
fn goes_on(
    alloc: Global,
    base: &MemDisk,
    format: Format,
    (choice, block, mirrors): (u32, &Block, u64),
    new: &Block,
) -> Result<(), Broken> {
    let mut left = cut(alloc, base, 2, choice)?;
    see(holds(&mut left, COPY, block)?, "the copy is old or new")?;
    let is_so = recovers(alloc, &mut left, format, mirrors, new)?;
    see(is_so, "the next recovery ends it")
}

impl Case {
    /// Sees that a crash leaves the block of the copy as it was or mended.
    fn crashes(&self, alloc: Global) -> Result<(), Broken> {
        let superblock = superblock(alloc, BLOCKS)?;
        let base = self.disk(alloc, &superblock)?;
        let old = self.held.block(&superblock);
        let new = self.left.block(&superblock);
        keeps_copy(alloc, &base, &old)?;
        let base = cut(alloc, &base, 1, 0)?;
        goes_on(alloc, &base, self.format, (0, &old, 1), &new)?;
        goes_on(alloc, &base, self.format, (1, &new, 0), &new)
    }
}

const CRASHED: [Case; 2] = [
    REISER,
    Case {
        held: Held::Filled(7),
        ..BTRFS
    },
];

#[test]
fn a_crash_leaves_the_block_as_it_was_or_mended(rt: HostRuntime) -> Result<(), Broken> {
    for case in &CRASHED {
        case.crashes(rt.alloc())?;
    }
    Ok(())
}

/// Which of two blocks that wait have reached the disk behind a crash.
const CHOICES: [[u32; 2]; 4] = [[0, 0], [1, 0], [0, 1], [1, 1]];

/// The blocks of a volume that has both copies.
const LARGE: u64 = SECOND_MIRROR_END;

/// How many of two writes a crash by this choice keeps, where so many were made with that of block 16 before them.
fn kept(writes: u64, choice: &[u32; 2]) -> u64 {
    let first = if writes > 1 && choice[0] == 1 {
        1u64
    } else {
        0
    };
    let second = if writes > 2 && choice[1] == 1 { 1 } else { 0 };
    first.saturating_add(second)
}

/// Whether a recovery of this disk that writes two copies is done behind the write of this number, and how the next one ends.
fn torn_apart(
    alloc: Global,
    base: &MemDisk,
    writes: u64,
    choice: &[u32; 2],
) -> Result<(bool, Ended), Broken> {
    let (answer, mut left) = stopped(alloc, base, None, writes, choice)?;
    Ok((answer.is_none(), recovered(alloc, &mut left)?))
}

/// A crash of a recovery that writes both copies tears the two writes apart as it likes, and the next recovery writes what is missing.
#[test]
fn both_copies_are_written(rt: HostRuntime) -> Result<(), Broken> {
    let base = btrfs(rt.alloc(), LARGE, &superblock(rt.alloc(), LARGE)?)?;
    for writes in 0..5 {
        for choice in &CHOICES {
            let is_done = writes == 4;
            let missing = if is_done {
                0
            } else {
                2u64.saturating_sub(kept(writes, choice))
            };
            let ended = torn_apart(rt.alloc(), &base, writes, choice)?;
            let is_so = ended == (is_done, told(Format::Btrfs, missing));
            see(is_so, "the next recovery writes what is missing")?;
        }
    }
    Ok(())
}

/// Whether a recovery of a disk on which this superblock waits is done behind the write of this number; and whether a crash then leaves in the
/// block of the copy what was there, or the copy and the superblock.
fn comes_before(
    alloc: Global,
    base: &MemDisk,
    superblock: &Block,
    writes: u64,
    choice: &[u32; 2],
) -> Result<(bool, bool), Broken> {
    let (answer, mut left) = stopped(alloc, base, Some(superblock), writes, choice)?;
    let is_copied = holds(&mut left, COPY, &copy_of(superblock))?;
    let is_so = if is_copied {
        holds(&mut left, 16, superblock)?
    } else {
        holds(&mut left, COPY, &filled(3))?
    };
    Ok((answer.is_none(), is_so))
}

/// A superblock that waits when a recovery begins has reached the device before its copy is written, so no crash leaves the copy alone.
#[test]
fn a_superblock_that_waits_comes_before_its_copy(rt: HostRuntime) -> Result<(), Broken> {
    let superblock = superblock(rt.alloc(), BLOCKS)?;
    let mut base = MemDisk::new(rt.alloc(), BLOCKS)?;
    put(&mut base, COPY, &filled(3))?;
    for writes in 0..4 {
        for choice in &CHOICES {
            let ended = comes_before(rt.alloc(), &base, &superblock, writes, choice)?;
            see(ended == (writes == 3, true), "no copy is alone")?;
        }
    }
    Ok(())
}
