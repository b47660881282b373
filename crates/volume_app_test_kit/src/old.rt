// A ReiserFS volume, and what has to come back of it.
use crate::block_access::{block, block_count};
use crate::broken::Broken;
use crate::run::done;
use outside_mem::MemDisk;
use std::alloc::Global;
use vol_block::{Block, BlockNo};

/// A ReiserFS volume: its disk, the blocks that it uses of the first 32,768, and the text of its rows.
#[derive(Drop)]
pub struct Old {
    pub(crate) alloc: Global,
    disk: MemDisk,
    used: Vec<(BlockNo, Block)>,
    rows: Vec<u8>,
}

/// The numbers of the blocks that a bitmap block marks, from block 0 on, of a disk of so many blocks.
fn marked(alloc: Global, bitmap: &Block, count: u64) -> Result<Vec<BlockNo>, Broken> {
    let mut marked = Vec::new(alloc);
    let mut n = 0u64;
    for &byte in &bitmap.bytes {
        for bit in 0..8u32 {
            if (byte >> bit) & 1 == 1 && n < count {
                marked.push(n)?;
            }
            n = n.wrapping_add(1);
        }
    }
    Ok(marked)
}

/// The blocks that a ReiserFS volume uses of the first 32,768 blocks of a disk, whose bits stand in block 17.
fn used(alloc: Global, disk: &mut MemDisk) -> Result<Vec<(BlockNo, Block)>, Broken> {
    let bitmap = block(disk, 17)?;
    let count = block_count(disk)?;
    let mut used = Vec::new(alloc);
    for &n in &marked(alloc, &bitmap, count)? {
        used.push((n, block(disk, n)?))?;
    }
    Ok(used)
}

impl Old {
    /// The volume of a disk. Of a disk of more than 32,768 blocks only the first of them are looked at.
    pub fn new(alloc: Global, disk: MemDisk) -> Result<Old, Broken> {
        let mut disk = disk;
        let rows = done(alloc, "list x", &mut disk)?;
        let used = used(alloc, &mut disk)?;
        Ok(Old {
            alloc,
            disk,
            used,
            rows,
        })
    }

    /// A disk of its own with the volume.
    pub fn copy(&self) -> Result<MemDisk, Broken> {
        Ok(self.disk.after_crash(&[])?)
    }

    /// A disk of its own with the volume that a conversion makes of it.
    pub fn converted(&self) -> Result<MemDisk, Broken> {
        let mut disk = self.copy()?;
        done(self.alloc, "convert x", &mut disk)?;
        disk.settle();
        Ok(disk)
    }

    /// Sees that a disk has the rows of the volume, in one format or the other.
    pub fn has_rows(&self, disk: &mut MemDisk) -> Result<(), Broken> {
        if done(self.alloc, "list x", disk)? != self.rows {
            return Err(Broken::Rows);
        }
        Ok(())
    }

    /// Sees that each block which the volume uses is as it was.
    pub fn is_back(&self, disk: &mut MemDisk) -> Result<(), Broken> {
        for (n, was) in &self.used {
            if block(disk, *n)? != *was {
                return Err(Broken::Changed(*n));
            }
        }
        Ok(())
    }
}
