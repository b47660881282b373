// Disks of these tests. What is done here to one is done to a flushed and closed disk, and leaves it so.
use outside::{Access, BlockSource, Disk, Fault, Memory};
use outside_mem::MemDisk;
use refusals::BtrAnswer;
use reiser_make::{MakeAnswer, make};
use std::alloc::Global;
use vol_block::{Block, BlockNo};
use volume_samples::SampleAnswer;

/// Why a test can't go on, or what it found wrong.
#[derive(Clone, Copy, Debug)]
pub enum Broken {
    /// There was no memory.
    Memory,
    /// A call of a disk failed that was not to fail.
    Fault,
    /// The disk has no such block.
    Short(BlockNo),
    /// A sample volume was not made, or not read.
    Sample,
    /// This is not so.
    Case(&'static str),
}

impl From<Memory> for Broken {
    fn from(_: Memory) -> Self {
        Broken::Memory
    }
}

impl From<Fault> for Broken {
    fn from(_: Fault) -> Self {
        Broken::Fault
    }
}

impl From<MakeAnswer> for Broken {
    fn from(_: MakeAnswer) -> Self {
        Broken::Sample
    }
}

impl From<SampleAnswer> for Broken {
    fn from(_: SampleAnswer) -> Self {
        Broken::Sample
    }
}

impl From<BtrAnswer> for Broken {
    fn from(_: BtrAnswer) -> Self {
        Broken::Sample
    }
}

/// Sees that it is so.
pub fn see(is_so: bool, case: &'static str) -> Result<(), Broken> {
    if is_so {
        Ok(())
    } else {
        Err(Broken::Case(case))
    }
}

/// A block of this byte alone.
pub fn filled(byte: u8) -> Block {
    Block {
        bytes: [byte; 4096],
    }
}

/// Gives a block of a disk other bytes.
pub fn put(disk: &mut MemDisk, n: BlockNo, to: &Block) -> Result<(), Broken> {
    disk.settle();
    disk.open("", Access::Write)?;
    if n >= disk.len() {
        return Err(Broken::Short(n));
    }
    disk.write(n, to)?;
    disk.settle();
    Ok(())
}

/// A block of a disk.
pub fn held(disk: &mut MemDisk, n: BlockNo) -> Result<Block, Broken> {
    disk.settle();
    disk.open("", Access::Read)?;
    if n >= disk.len() {
        return Err(Broken::Short(n));
    }
    let mut block = Block::zero();
    disk.read(n, &mut block)?;
    disk.settle();
    Ok(block)
}

/// Whether a disk has this block.
pub fn holds(disk: &mut MemDisk, n: BlockNo, wanted: &Block) -> Result<bool, Broken> {
    Ok(held(disk, n)? == *wanted)
}

/// Gives a byte of a block of a disk another value.
pub fn change(disk: &mut MemDisk, n: BlockNo, at: usize, to: u8) -> Result<(), Broken> {
    let mut block = held(disk, n)?;
    if at >= 4096 {
        return Err(Broken::Short(n));
    }
    block.bytes[at] = to;
    put(disk, n, &block)
}

/// The most blocks that a ReiserFS volume of these tests has.
const MOST: u64 = 20_000;

/// A ReiserFS volume of so many blocks with an empty root directory, alone on its disk.
pub fn reiser(alloc: Global, blocks: u64) -> Result<MemDisk, Broken> {
    let mut disk = MemDisk::new(alloc, blocks)?;
    disk.open("", Access::Write)?;
    if disk.len() < blocks || blocks > MOST {
        return Err(Broken::Short(blocks));
    }
    make(alloc, 0, blocks, &mut disk)?;
    disk.settle();
    Ok(disk)
}
