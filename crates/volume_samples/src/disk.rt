ghost use Rattle.std.specs.Prelude.{◌≡◌, None, IfOk, length};

use crate::leaves::{put_chunk_leaf, put_file_leaf, put_root_leaf};
use crate::sample::{BLOCKS, Sample, SampleAnswer};
use crate::superblock::superblock;
use outside_mem::MemDisk;
use std::alloc::Global;

impl Sample {
    /// A settled disk of 12,288 blocks with the volume on it, not open, that fails nowhere.
    pub fn disk(&self, alloc: Global) -> Result<MemDisk, SampleAnswer>
        ensures size { IfOk result (λ d. length d.history.start ≡ 12288) }
        ensures closed { IfOk result (λ d. d.opened ≡ None) }
    {
        let mut disk = MemDisk::new(alloc, BLOCKS)?;
        disk.set_block(16, &superblock(self))?;
        put_chunk_leaf(alloc, &mut disk, self)?;
        put_root_leaf(alloc, &mut disk, self)?;
        put_file_leaf(alloc, &mut disk, self)?;
        Ok(disk)
    }
}
