// Single blocks of a disk that is flushed and closed before and behind.
use crate::broken::Broken;
use outside::{Access, BlockSource, Disk};
use outside_mem::MemDisk;
use vol_block::{Block, BlockNo, Format, format_of};

/// How many blocks a disk has.
pub fn block_count(disk: &mut MemDisk) -> Result<u64, Broken> {
    disk.settle();
    disk.open("", Access::Read)?;
    let count = disk.len();
    disk.settle();
    Ok(count)
}

/// A block of a disk.
pub fn block(disk: &mut MemDisk, n: BlockNo) -> Result<Block, Broken> {
    disk.settle();
    disk.open("", Access::Read)?;
    if n >= disk.len() {
        return Err(Broken::Short(n));
    }
    let mut block = Block::zero();
    disk.read(n, &mut block)?;
    disk.settle();
    Ok(block)
}

/// Gives a block of a disk other bytes.
pub fn put_block(disk: &mut MemDisk, n: BlockNo, to: &Block) -> Result<(), Broken> {
    disk.settle();
    disk.open("", Access::Write)?;
    if n >= disk.len() {
        return Err(Broken::Short(n));
    }
    disk.write(n, to)?;
    disk.settle();
    Ok(())
}

/// The format that block 16 tells, where both formats have their superblock.
pub fn format_at_16(disk: &mut MemDisk) -> Result<Format, Broken> {
    Ok(format_of(&block(disk, 16)?))
}
