ghost use Rattle.std.specs.Prelude.{◌≡◌, ◌<◌, [], Some, nat_eq, refl, IsTrue, IsSome, IfOk, OnOk};
ghost use Rattle.std.proofs.Common.{◌∙◌};
ghost use Rattle.std.specs.Map.{lookup};
ghost use Rattle.outside.specs.Cache.{AreOf};
ghost use Rattle.outside.specs.Fault.{HasCause};
ghost use Rattle.outside.specs.History.{block_at};

use crate::{Access, BlockSource, Disk, Fault, Memory};
use lru::LruCache;
use std::alloc::Global;
use std::num::NonZeroUsize;
use vol_block::{Block, BlockNo};

/// Memory for some blocks of a disk.
///
/// It is taken before a disk is borrowed, so that want of memory leaves the disk alone, and may serve one disk after the
/// other.
#[derive(Drop)]
pub struct Room {
    blocks: LruCache<u64, Block>,
}

impl Room {
    /// Memory for up to so many blocks, at least one.
    pub fn new(alloc: Global, blocks: usize) -> Result<Room, Memory>
        requires { 0 < blocks }
        ensures { IfOk result (λ room. room.blocks.cap ≡ blocks) }
    {
        Ok(Room {
            blocks: LruCache::new(alloc, NonZeroUsize::new(blocks).unwrap())?,
        })
    }
}

/// A disk with some of its blocks kept in memory, those that were used last.
///
/// It reads and writes as the disk does: its faults, its blocks and what was done to it are those of the disk. A read
/// of a block that is kept leaves the disk alone. Each write goes to the disk.
#[derive(Drop)]
pub struct Cached<'a, D: Disk> {
    disk: &'a mut D,
    room: &'a mut Room,
    ghost are_of: { IsTrue D.tells → AreOf (D.blocks disk.now) room.now.blocks.entries },
}

impl<'a, D: Disk> Cached<'a, D> {
    /// Borrows a disk, to keep as many of its blocks as there is room for. None is kept yet.
    pub fn new(disk: &'a mut D, room: &'a mut Room) -> Cached<'a, D>
        ensures same { result.disk.now ≡ disk.old }
        ensures borrowed { result.disk.ghost_name ≡ disk.entry.ghost_name }
        ensures empty { result.room.now.blocks.entries ≡ [] }
    {
        room.blocks.clear();
        Cached { disk, room }
    }
}

impl<D: Disk> BlockSource for Cached<'_, D> {
    ghost tells = { D.tells };

    ghost blocks = { λ c. D.blocks c.disk.now };

    ghost size = { λ c. D.size c.disk.now };

    ghost faults = { λ c. D.faults c.disk.now };

    ghost kept = { λ a b. D.kept a.disk.now b.disk.now × (b.disk.ghost_name ≡ a.disk.ghost_name) };

    ghost kept_refl = { λ a. (D.kept_refl a.disk.now, refl) };

    ghost kept_trans = { λ a b c first second. (D.kept_trans a.disk.now b.disk.now c.disk.now first.0 second.0, second.1 ∙ first.1) };

    ghost kept_size = { λ a b kept. D.kept_size a.disk.now b.disk.now kept.0 };

    ghost kept_blocks = { λ a b tells kept. D.kept_blocks a.disk.now b.disk.now tells kept.0 };

    ghost size_is = { λ a tells. D.size_is a.disk.now tells };

    fn len(&self) -> u64 {
        self.disk.len()
    }

    /// Reads the disk only where the block is not kept.
    fn read(&mut self, n: BlockNo, into: &mut Block) -> Result<(), Fault>
        requires { n < D.size self.old.disk.now }
        ensures kept { D.kept self.old.disk.now self.new.disk.now × (self.new.disk.ghost_name ≡ self.old.disk.ghost_name) }
        ensures block { IsTrue D.tells → OnOk result (into.new.bytes ≡ block_at (D.blocks self.old.disk.now) n) }
        ensures cause { HasCause (D.faults self.old.disk.now) (D.faults self.new.disk.now) result }
        ensures hit { IsSome (lookup (nat_eq n) self.old.room.now.blocks.entries) → self.new.disk.now ≡ self.old.disk.now }
    {
        if let Some(block) = self.room.blocks.get(&n).copied() {
            *into = block;
            return Ok(());
        }
        self.disk.read(n, into)?;
        // Without memory the block is not kept.
        let _ = self.room.blocks.put(n, *into);
        Ok(())
    }

    fn will_read(&mut self, told: Vec<BlockNo>) {
        self.disk.will_read(told);
    }
}

impl<D: Disk> Disk for Cached<'_, D> {
    ghost history = { λ c. D.history c.disk.now };

    ghost opened = { λ c. D.opened c.disk.now };

    ghost borrow = { λ c. c.disk.ghost_name };

    ghost wants = { D.wants };

    ghost kept_history = { λ a b tells kept. D.kept_history a.disk.now b.disk.now tells kept.0 };

    ghost kept_opened = { λ a b kept. D.kept_opened a.disk.now b.disk.now kept.0 };

    ghost kept_borrow = { λ a b kept. kept.1 };

    ghost open_blocks = { λ a access tells is. D.open_blocks a.disk.now access tells is };

    ghost open_size = { λ a access tells is. D.open_size a.disk.now access tells is };

    ghost closed_size = { λ a is. D.closed_size a.disk.now is };

    fn open(&mut self, path: &str, access: Access) -> Result<(), Fault> {
        self.room.blocks.clear();
        self.disk.open(path, access)
    }

    fn write(&mut self, n: BlockNo, from: &Block) -> Result<(), Fault> {
        match self.disk.write(n, from) {
            Ok(()) => {
                if self.room.blocks.contains(&n) {
                    let _ = self.room.blocks.put(n, *from);
                }
                Ok(())
            }
            Err(fault) => {
                if self.room.blocks.len() > 0 {
                    let _ = self.room.blocks.pop(&n);
                }
                Err(fault)
            }
        }
    }

    fn sync(&mut self) -> Result<(), Fault> {
        self.disk.sync()
    }
}
