ghost use Rattle.std.specs.Prelude.{◌≡◌, ◌≤◌, ◌<◌, length};
ghost use Rattle.reiser_bitmap.specs.outside.Fault.{HasCause};

use crate::Volume;
use crate::marks::FileOnDisk;
use reiser_bitmap::{BlockNo, BlockSource, Fault, VolAnswer};
use reiser_volume_files::{FileMap, RunFrom};
use std::alloc::Global;

/// The blocks of how many files are told together: of as many as have 64 MiB.
const WINDOW: u64 = 16384;
/// How many blocks are told at most: 16 GiB, whose numbers take 32 MiB of memory.
const MOST: usize = 1 << 22;

// What a source is told of leaves and files. These are hints, so of what there is no memory for nothing is said, and a
// volume that was changed is refused by who reads it for good.
impl Volume {
    /// Says to a source that all leaves come, in the order of keys.
    pub(crate) fn tell_leaves<S: BlockSource>(&self, alloc: Global, src: &mut S)
        ensures kept { S.kept src.old src.new }
        ensures faults { S.faults src.new ≡ S.faults src.old }
    {
        let leaves = &self.objects.leaves;
        let mut told = Vec::new(alloc);
        for i in 0..leaves.len() {
            tell(&mut told, leaves.get(i));
        }
        src.will_read(told);
    }

    /// Says to a source which leaves and blocks come with these files from a place of their order on, where those before
    /// `told` are told. Behind the last file that is told then.
    pub(crate) fn tell_window<S: BlockSource>(
        &self,
        alloc: Global,
        src: &mut S,
        files: &Vec<FileOnDisk>,
        at: usize,
        told: usize,
    ) -> Result<usize, Fault>
        ensures kept { S.kept src.old src.new }
        ensures cause { HasCause (S.faults src.old) (S.faults src.new) result }
    {
        if at < told {
            return Ok(told);
        }
        let end = self.window_end(files, at);
        self.tell_first_leaves(alloc, src, files, at, end);
        self.tell_blocks(alloc, src, files, at, end)?;
        Ok(end)
    }

    /// Behind the first of these files, from one on, that have as many blocks as are told together.
    fn window_end(&self, files: &Vec<FileOnDisk>, from: usize) -> usize
        ensures { result ≤ length files.now.items }
    {
        let mut blocks: u64 = 0;
        for i in from..files.len() {
            blocks = blocks.saturating_add(self.blocks_at(files[i].place));
            if blocks >= WINDOW {
                return i + 1;
            }
        }
        files.len()
    }

    /// How many blocks the size of the object at a place takes.
    fn blocks_at(&self, place: usize) -> u64 {
        if place < self.count() {
            self.stat(place).fields.size.div_ceil(4096)
        } else {
            0
        }
    }

    /// Says to a source that the first leaves of these files come.
    fn tell_first_leaves<S: BlockSource>(
        &self,
        alloc: Global,
        src: &mut S,
        files: &Vec<FileOnDisk>,
        from: usize,
        end: usize,
    )
        requires { end ≤ length files.now.items }
        ensures kept { S.kept src.old src.new }
        ensures faults { S.faults src.new ≡ S.faults src.old }
    {
        let mut told = Vec::new(alloc);
        for i in from..end {
            if let Some(leaf) = self.first_leaf(files[i].place) {
                tell(&mut told, leaf);
            }
        }
        src.will_read(told);
    }

    /// The leaf that holds the first item of the object at a place.
    fn first_leaf(&self, place: usize) -> Option<BlockNo> {
        if place >= self.count() {
            return None;
        }
        let leaf = self.objects.first_leaf(self.object(place))?;
        if leaf < self.objects.leaves.len() {
            Some(self.objects.leaves.get(leaf))
        } else {
            None
        }
    }

    /// Says to a source that the blocks of these files come. It reads the leaves of their items.
    fn tell_blocks<S: BlockSource>(
        &self,
        alloc: Global,
        src: &mut S,
        files: &Vec<FileOnDisk>,
        from: usize,
        end: usize,
    ) -> Result<(), Fault>
        requires { end ≤ length files.now.items }
        ensures kept { S.kept src.old src.new }
        ensures cause { HasCause (S.faults src.old) (S.faults src.new) result }
    {
        let mut told = Vec::new(alloc);
        for i in from..end {
            let map = self.map_for_hint(alloc, src, files[i].place)?;
            add_blocks(&mut told, &map);
        }
        src.will_read(told);
        Ok(())
    }

    /// The map of the file at a place, as `file_map` gives it; an empty one where there is none.
    pub(crate) fn map_for_hint<S: BlockSource>(
        &self,
        alloc: Global,
        src: &mut S,
        place: usize,
    ) -> Result<FileMap, Fault>
        ensures kept { S.kept src.old src.new }
        ensures cause { HasCause (S.faults src.old) (S.faults src.new) result }
    {
        if place >= self.count() {
            return Ok(FileMap::new(alloc));
        }
        match self.file_map(alloc, src, place) {
            Ok(map) => Ok(map),
            Err(VolAnswer::Fault) => Err(Fault),
            Err(VolAnswer::Refused(_) | VolAnswer::Memory) => Ok(FileMap::new(alloc)),
        }
    }
}

/// Adds the blocks of a file that lie on the disk, in the order of the file.
fn add_blocks(told: &mut Vec<BlockNo>, map: &FileMap) {
    for i in 0..map.len() {
        let run = map.get(i);
        if let RunFrom::Disk(first) = run.from {
            for k in 0..run.count.min(MOST as u64) {
                tell(told, first.saturating_add(k));
            }
        }
    }
}

/// Adds a block, unless as many are told as may be; without memory it is left out.
fn tell(told: &mut Vec<BlockNo>, block: BlockNo) {
    if told.len() < MOST {
        let _ = told.push(block);
    }
}
