// Recoveries of small volumes in memory.
ghost use Rattle.std.specs.Prelude.{◌≡◌, OnOk, Some};

mod half_turned;
mod stopped;

use crate::disks::{Broken, change, filled, holds, put, reiser, see};
use btr_super::{Super, mirror};
use btrfs_format::block::{FIRST_MIRROR, SUPER_INFO_OFFSET};
use command_answers::Answer;
use outside::{Access, BlockSource, Disk};
use outside_mem::MemDisk;
use refusals::{BtrRefusal, BtrRule, VolumeRefusal};
use rollback_core::{RecoverSummary, recover};
use std::alloc::Global;
use std::test::*;
use vol_block::{Block, BlockNo, Format};
use volume_samples::Sample;

/// The blocks of a volume that has one copy of a superblock, and that block.
const BLOCKS: u64 = 20_000;

const COPY: BlockNo = FIRST_MIRROR;

/// Bytes that look like a Btrfs superblock by its magic alone.
fn magic() -> Block {
    let mut block = filled(3);
    block.bytes[64..72].copy_from_slice(b"_BHRfS_M");
    block
}

/// The superblock of a sample, on a volume of so many blocks.
fn superblock(alloc: Global, blocks: u64) -> Result<Block, Broken> {
    let sample = Sample::PLAIN.disk(alloc)?;
    let mut block = Block::zero();
    sample.block(16, &mut block);
    let Ok(sup) = Super::read(&block, 16, blocks) else {
        return Err(Broken::Sample);
    };
    let sup = Super {
        total_bytes: blocks.saturating_mul(4096),
        ..sup
    };
    sup.encode(&mut block);
    Ok(block)
}

/// The first copy of a superblock.
fn copy_of(superblock: &Block) -> Block {
    let mut copy = Block::zero();
    mirror(superblock, COPY, &mut copy);
    copy
}

/// A disk of so many blocks with this superblock and zeros in all others.
fn btrfs(alloc: Global, blocks: u64, superblock: &Block) -> Result<MemDisk, Broken> {
    let mut disk = MemDisk::new(alloc, blocks)?;
    put(&mut disk, 16, superblock)?;
    Ok(disk)
}

/// What goes wrong in a recovery.
#[derive(Clone, Copy)]
enum Trouble {
    Nothing,
    /// The call of the disk of this number fails, counted from 0.
    Call(u64),
    /// All calls of the disk fail behind so many writes.
    Stop(u64),
}

/// Writes block 16 of an open disk, where it has one.
fn put_superblock(disk: &mut MemDisk, superblock: &Block) -> Result<(), Broken>
    requires open { disk.old.opened ≡ Some Access.Write }
    ensures open { disk.new.opened ≡ Some Access.Write }
{
    if disk.len() > 16 {
        disk.write(16, superblock)?;
    }
    Ok(())
}

/// Flushes a disk and opens it; this superblock then waits in block 16, if one is to.
fn open(disk: &mut MemDisk, waiting: Option<&Block>) -> Result<(), Broken>
    ensures { OnOk result (disk.new.opened ≡ Some Access.Write) }
{
    disk.settle();
    disk.open("", Access::Write)?;
    match waiting {
        Some(superblock) => put_superblock(disk, superblock),
        None => Ok(()),
    }
}

/// Opens a disk, and has the calls fail that are to fail in the recovery.
fn begin(disk: &mut MemDisk, waiting: Option<&Block>, trouble: Trouble) -> Result<(), Broken>
    ensures { OnOk result (disk.new.opened ≡ Some Access.Write) }
{
    open(disk, waiting)?;
    match trouble {
        Trouble::Nothing => Ok(()),
        Trouble::Call(k) => Ok(disk.fail_call(k)?),
        Trouble::Stop(writes) => {
            disk.stop_at_write(writes);
            Ok(())
        }
    }
}

/// What a recovery answers, and how many writes there were since the disk was flushed.
type Ended = (Result<RecoverSummary, Answer>, u64);

/// Recovers a disk on which something may go wrong, and a superblock may wait.
fn recovery(
    alloc: Global,
    disk: &mut MemDisk,
    waiting: Option<&Block>,
    trouble: Trouble,
) -> Result<Ended, Broken> {
    begin(disk, waiting, trouble)?;
    let answer = recover(alloc, disk);
    Ok((answer, disk.writes()))
}

/// Recovers a disk on which nothing goes wrong.
fn recovered(alloc: Global, disk: &mut MemDisk) -> Result<Ended, Broken> {
    recovery(alloc, disk, None, Trouble::Nothing)
}

/// How many writes a recovery of so many copies makes: block 16 comes before them.
fn writes_for(mirrors: u64) -> u64 {
    if mirrors == 0 {
        0
    } else {
        mirrors.saturating_add(1)
    }
}

/// How a recovery ends that writes so many copies.
fn told(format: Format, mirrors: u64) -> Ended {
    (Ok(RecoverSummary { format, mirrors }), writes_for(mirrors))
}

/// Whether a disk is recovered by the write of so many copies, and then once more, which writes nothing; and the block of the copy
/// is then this one.
fn recovers(
    alloc: Global,
    disk: &mut MemDisk,
    format: Format,
    mirrors: u64,
    copy: &Block,
) -> Result<bool, Broken> {
    let first = recovered(alloc, disk)?;
    let is_copied = holds(disk, COPY, copy)?;
    let second = recovered(alloc, disk)?;
    let is_kept = holds(disk, COPY, copy)?;
    Ok(first == told(format, mirrors) && is_copied && second == told(format, 0) && is_kept)
}

/// What the block of the copy holds.
#[derive(Clone, Copy)]
enum Held {
    Zeros,
    Filled(u8),
    /// What looks like a superblock by its magic alone.
    Magic,
    /// The same as block 16.
    Superblock,
    /// The copy of block 16.
    Copy,
}

impl Held {
    /// The block, beside this superblock of Btrfs.
    fn block(self, superblock: &Block) -> Block {
        match self {
            Held::Zeros => Block::zero(),
            Held::Filled(byte) => filled(byte),
            Held::Magic => magic(),
            Held::Superblock => *superblock,
            Held::Copy => copy_of(superblock),
        }
    }
}

/// A volume, and what a recovery makes of the block of its copy.
#[derive(Clone, Copy)]
struct Case {
    name: &'static str,
    format: Format,
    blocks: u64,
    held: Held,
    /// Whether the bitmap of ReiserFS marks the block of the copy.
    is_used: bool,
    /// How many copies are written, and what is there then.
    mirrors: u64,
    left: Held,
}

const REISER: Case = Case {
    name: "a superblock without use is wiped",
    format: Format::Reiser,
    blocks: BLOCKS,
    held: Held::Magic,
    is_used: false,
    mirrors: 1,
    left: Held::Zeros,
};

const BTRFS: Case = Case {
    name: "a copy that differs is written",
    format: Format::Btrfs,
    blocks: BLOCKS,
    held: Held::Superblock,
    is_used: false,
    mirrors: 1,
    left: Held::Copy,
};

const CASES: [Case; 10] = [
    REISER,
    Case {
        name: "other bytes are kept",
        held: Held::Filled(3),
        mirrors: 0,
        left: Held::Filled(3),
        ..REISER
    },
    Case {
        name: "a used block is kept",
        is_used: true,
        mirrors: 0,
        left: Held::Magic,
        ..REISER
    },
    BTRFS,
    Case {
        name: "a copy that is missing is written",
        held: Held::Zeros,
        ..BTRFS
    },
    Case {
        name: "a copy that is there is kept",
        held: Held::Copy,
        mirrors: 0,
        ..BTRFS
    },
    // A copy never ends with the volume.
    Case {
        name: "the last block of ReiserFS is kept",
        blocks: COPY + 1,
        mirrors: 0,
        left: Held::Magic,
        ..REISER
    },
    Case {
        name: "the last block but one of ReiserFS is wiped",
        blocks: COPY + 2,
        ..REISER
    },
    Case {
        name: "the last block of Btrfs is kept",
        blocks: COPY + 1,
        held: Held::Filled(7),
        mirrors: 0,
        left: Held::Filled(7),
        ..BTRFS
    },
    Case {
        name: "the last block but one of Btrfs is written",
        blocks: COPY + 2,
        held: Held::Filled(7),
        ..BTRFS
    },
];

impl Case {
    /// The volume, whose superblock is this one if it is Btrfs.
    fn disk(&self, alloc: Global, superblock: &Block) -> Result<MemDisk, Broken> {
        let mut disk = if self.format == Format::Btrfs {
            btrfs(alloc, self.blocks, superblock)?
        } else {
            reiser(alloc, self.blocks)?
        };
        self.fill(&mut disk, superblock)?;
        Ok(disk)
    }

    /// Fills the block of the copy, and marks it. The byte of the bitmap for blocks 16384 to 16391 marks all of them.
    fn fill(&self, disk: &mut MemDisk, superblock: &Block) -> Result<(), Broken> {
        put(disk, COPY, &self.held.block(superblock))?;
        if self.is_used {
            change(disk, 17, 2048, 0xff)?;
        }
        Ok(())
    }

    /// Sees that the volume is recovered so.
    fn check(&self, alloc: Global) -> Result<(), Broken> {
        let superblock = superblock(alloc, self.blocks)?;
        let mut disk = self.disk(alloc, &superblock)?;
        let left = self.left.block(&superblock);
        let is_so = recovers(alloc, &mut disk, self.format, self.mirrors, &left)?;
        see(is_so, self.name)
    }
}

#[test]
fn copies_are_mended(rt: HostRuntime) -> Result<(), Broken> {
    for case in &CASES {
        case.check(rt.alloc())?;
    }
    Ok(())
}

/// A disk that is refused.
#[derive(Clone, Copy)]
enum Wrong {
    /// So many blocks of zeros.
    Zeros(u64),
    /// A ReiserFS volume that is not clean.
    Unclean,
    /// A superblock of Btrfs whose checksum is wrong.
    Torn,
}

impl Wrong {
    fn disk(self, alloc: Global) -> Result<MemDisk, Broken> {
        match self {
            Wrong::Zeros(blocks) => Ok(MemDisk::new(alloc, blocks)?),
            Wrong::Unclean => {
                let mut disk = REISER.disk(alloc, &Block::zero())?;
                change(&mut disk, 16, 50, 2)?;
                Ok(disk)
            }
            Wrong::Torn => {
                let mut disk = btrfs(alloc, BLOCKS, &superblock(alloc, BLOCKS)?)?;
                change(&mut disk, 16, 300, 1)?;
                Ok(disk)
            }
        }
    }
}

const NONE: Answer = Answer::Volume(VolumeRefusal::NotVolume);

const REFUSED: [(Wrong, Answer); 5] = [
    (Wrong::Zeros(0), NONE),
    (Wrong::Zeros(16), NONE),
    (Wrong::Zeros(BLOCKS), NONE),
    (
        Wrong::Unclean,
        Answer::Volume(VolumeRefusal::Unclean { state: 2 }),
    ),
    (
        Wrong::Torn,
        Answer::Btr(BtrRefusal::BadBtrfs {
            address: SUPER_INFO_OFFSET,
            rule: BtrRule::SuperCsum,
        }),
    ),
];

/// What is answered where no block may be written.
fn ended_on(alloc: Global, wrong: Wrong) -> Result<Ended, Broken> {
    let mut disk = wrong.disk(alloc)?;
    recovered(alloc, &mut disk)
}

#[test]
fn what_is_wrong_is_refused(rt: HostRuntime) -> Result<(), Broken> {
    for (wrong, answer) in &REFUSED {
        let ended = ended_on(rt.alloc(), *wrong)?;
        see(ended == (Err(*answer), 0), "it is refused, and not written")?;
    }
    Ok(())
}

/// What is answered where this call of the disk fails.
fn ended_without(alloc: Global, superblock: &Block, call: u64) -> Result<Ended, Broken> {
    let mut disk = btrfs(alloc, BLOCKS, superblock)?;
    recovery(alloc, &mut disk, None, Trouble::Call(call))
}

#[test]
fn each_failed_call_is_a_fault(rt: HostRuntime) -> Result<(), Broken> {
    let superblock = superblock(rt.alloc(), BLOCKS)?;
    for call in 0..8 {
        let (answer, _) = ended_without(rt.alloc(), &superblock, call)?;
        see(answer == Err(Answer::Fault), "a failed call is a fault")?;
    }
    Ok(())
}
