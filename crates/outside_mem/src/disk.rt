ghost use Rattle.std.specs.Prelude.{◌≡◌, ◌<◌, ℕ, [], List, Some, None, true, false, is_err, length, replicate, IsTrue, IfOk, OnOk, OnErr};
ghost use Rattle.outside.specs.Fault.{HasCause};
ghost use Rattle.outside.specs.History.{block_at, reads, WritesBlock, Syncs, MayLeave};
ghost use Rattle.outside.specs.vol_block.Volume.{zeros};
ghost use Rattle.outside_mem.specs.Choice.{HasWholeBlocks, crash_image, torn_image};
ghost use Rattle.outside_mem.specs.Disk.{State, Kept, Fails, fresh, after_call, after_read, after_failure, after_write, after_sync};
ghost use Rattle.outside_mem.specs.Done.{calls_of, with_block};
ghost use Rattle.outside_mem.specs.Failures.{fails_next, with_failing, stopping_at};
ghost use Rattle.outside_mem.specs.Laws.{readable, readable_len, kept_refl, kept_trans, kept_readable, open_readable, closed_readable};
ghost use Rattle.outside_mem.specs.Store.{bytes_at, undone_at, has_key, image_of, IsConsistent};
ghost use Rattle.std.proofs.Common.{refl, ap};

use crate::crash::{SectorNumbers, choose, choose_torn};
use crate::schedule::Schedule;
use crate::store::{Done, block_of, put_recorded, reset};
use outside::vol_block::{Block, BlockNo};
use outside::{Access, BlockSource, Disk, Fault, Memory};
use std::alloc::Global;
use std::collections::BTreeMap;
use std::marker::Model;

/// A disk in memory, kept sparsely, with the record of what was done to it.
///
/// Its contracts see what was done to it and what it is open for; which calls are to fail; and four counts: of calls
/// that failed, of those among them that found no memory, of writes that landed, and of reads that succeeded. Each count
/// stays at the last value of a `u64` once it is there. It may be asked to open any path, and ignores it.
#[derive(Drop)]
pub struct MemDisk {
    alloc: Global,
    count: u64,
    present: BTreeMap<u64, Block>,
    first: BTreeMap<u64, Block>,
    unsynced: BTreeMap<u64, Block>,
    calls: Vec<Done>,
    opened: Option<Access>,
    schedule: Schedule,
    faults: u64,
    refused: u64,
    writes: u64,
    reads_made: u64,
}

impl Model for MemDisk {
    ghost Value = { State };

    ghost view = { λ d. record {
      history = record { start = image_of d.count (undone_at d.first d.present); calls = calls_of d.calls.items };
      opened = d.opened;
      failures = d.schedule;
      faults = d.faults;
      refused = d.refused;
      writes = d.writes;
      reads_made = d.reads_made;
    } };

    ghost invariant = { λ d. IsConsistent d.count (bytes_at d.present) (undone_at d.first d.present) (undone_at d.unsynced d.present) (has_key d.unsynced) (calls_of d.calls.items) };
}

impl MemDisk {
    /// A settled disk of that many blocks of zeros, not open, that fails nowhere.
    pub fn new(alloc: Global, blocks: u64) -> Result<MemDisk, Memory>
        ensures new { IfOk result (λ d. d ≡ fresh (replicate blocks zeros)) }
        ensures size { IfOk result (λ d. length d.history.start ≡ blocks) }
    {
        Ok(Self::holding(alloc, blocks, BTreeMap::new(alloc)))
    }

    /// Gives a block these bytes as if it had had them from the start, and drops the values written to it.
    ///
    /// It is no call of the disk. Where there is no memory the disk is unchanged.
    pub fn set_block(&mut self, n: BlockNo, to: &Block) -> Result<(), Memory>
        requires { n < length self.old.history.start }
        ensures ok { OnOk result (self.new ≡ record self.old { history = with_block self.old.history n to.now.bytes }) }
        ensures err { OnErr result (self.new ≡ self.old) }
        ensures size { length self.new.history.start ≡ length self.old.history.start }
    {
        reset(
            &mut self.calls,
            &mut self.first,
            &mut self.unsynced,
            &mut self.present,
            n,
            to,
        )?;
        Ok(())
    }

    /// The k-th call of open, read, write and sync from now on, counted from 0, fails.
    ///
    /// A write that fails so does not land, and adds no value that a crash may leave.
    pub fn fail_call(&mut self, k: u64) -> Result<(), Memory>
        ensures ok { OnOk result (self.new ≡ record self.old { failures = with_failing self.old.failures k }) }
        ensures err { OnErr result (self.new ≡ self.old) }
        ensures size { length self.new.history.start ≡ length self.old.history.start }
    {
        self.schedule.fail_call(k)
    }

    /// k further writes pass, and then every call fails.
    pub fn stop_at_write(&mut self, k: u64)
        ensures stop { self.new ≡ record self.old { failures = stopping_at self.old.failures k } }
        ensures size { length self.new.history.start ≡ length self.old.history.start }
    {
        self.schedule.stop_at_write(k);
    }

    /// How many writes landed since it was made or settled.
    pub fn writes(&self) -> u64
        ensures { result ≡ self.now.writes }
    {
        self.writes
    }

    /// How many reads succeeded since it was made or settled.
    pub fn reads(&self) -> u64
        ensures { result ≡ self.now.reads_made }
    {
        self.reads_made
    }

    /// How many calls found no memory.
    pub fn refused(&self) -> u64
        ensures { result ≡ self.now.refused }
    {
        self.refused
    }

    /// Closes it, with what reads give all on the disk, and fails no more.
    ///
    /// It stands for closing and flushing a device between two commands.
    pub fn settle(&mut self)
        ensures settled { self.new ≡ record (fresh (reads self.old.history)) { faults = self.old.faults; refused = self.old.refused } }
        ensures size { length self.new.history.start ≡ length self.old.history.start }
    {
        self.first.clear();
        self.unsynced.clear();
        self.calls.clear();
        self.opened = None;
        self.schedule.clear();
        self.writes = 0;
        self.reads_made = 0;
    }

    /// The disk that a crash now leaves: settled, not open, and failing nowhere.
    ///
    /// Of the blocks written since the last sync, in ascending order, the i-th has the value of number `choice[i]`
    /// modulo the number of its values. Value 0 is the one at the last sync, and value j the j-th written since. A
    /// missing choice is 0.
    pub fn after_crash(&self, choice: &[u32]) -> Result<MemDisk, Memory>
        ensures chosen { IfOk result (λ d. d ≡ fresh (crash_image self.now.history choice.now)) }
        ensures left { IfOk result (λ d. MayLeave self.now.history.start self.now.history.calls (reads d.history)) }
        ensures size { IfOk result (λ d. length d.history.start ≡ length self.now.history.start) }
    {
        let mut blocks = self.present.clone()?;
        choose(&mut blocks, &self.unsynced, &self.calls, choice)?;
        Ok(Self::holding(self.alloc, self.count, blocks))
    }

    /// The disk that a crash now leaves where it tears blocks apart: settled, not open, and failing nowhere.
    ///
    /// Of the blocks written since the last sync, in ascending order, the i-th has in its sector s what its value of
    /// number `choice[i][s]` has there, modulo the number of its values, which are counted as in
    /// [`MemDisk::after_crash`]. Missing numbers are 0.
    pub fn after_torn_crash(&self, choice: &[SectorNumbers]) -> Result<MemDisk, Memory>
        ensures chosen { IfOk result (λ d. d ≡ fresh (torn_image self.now.history choice.now)) }
        ensures left { IfOk result (λ d. MayLeave self.now.history.start self.now.history.calls (reads d.history)) }
        ensures size { IfOk result (λ d. length d.history.start ≡ length self.now.history.start) }
        ensures whole { HasWholeBlocks self.now.history }
    {
        let mut blocks = self.present.clone()?;
        choose_torn(&mut blocks, &self.unsynced, &self.calls, choice)?;
        Ok(Self::holding(self.alloc, self.count, blocks))
    }

    /// A settled disk of that many blocks, which has these and zeros where there is none.
    fn holding(alloc: Global, blocks: u64, present: BTreeMap<u64, Block>) -> MemDisk
        requires { (q : ℕ) → q < blocks → length (bytes_at present q) ≡ 4096 }
        ensures { result ≡ fresh (image_of blocks (bytes_at present)) }
    {
        MemDisk {
            alloc,
            count: blocks,
            present,
            first: BTreeMap::new(alloc),
            unsynced: BTreeMap::new(alloc),
            calls: Vec::new(alloc),
            opened: None,
            schedule: Schedule::new(alloc),
            faults: 0,
            refused: 0,
            writes: 0,
            reads_made: 0,
        }
    }

    /// Copies a block as reads give it.
    pub fn block(&self, n: BlockNo, into: &mut Block)
        requires { n < length self.now.history.start }
        ensures { into.new.bytes ≡ block_at (reads self.now.history) n }
    {
        *into = block_of(&self.present, n);
    }
}

impl BlockSource for MemDisk {
    ghost tells = { true };

    ghost blocks = { readable };

    ghost size = { readable_len };

    ghost faults = { λ d. d.faults };

    ghost kept = { Kept };

    ghost kept_refl = { kept_refl };

    ghost kept_trans = { kept_trans };

    ghost kept_size = { λ a b kept. ap length (kept_readable a b kept) };

    ghost kept_blocks = { λ a b tells kept. kept_readable a b kept };

    ghost size_is = { λ a tells. refl };

    fn len(&self) -> u64 {
        if self.opened.is_some() { self.count } else { 0 }
    }

    /// Takes no memory, and fails exactly where it is listed or stopped.
    fn read(&mut self, n: BlockNo, into: &mut Block) -> Result<(), Fault>
        requires { n < readable_len self.old }
        ensures kept { Kept self.old self.new }
        ensures block { IsTrue true → OnOk result (into.new.bytes ≡ block_at (readable self.old) n) }
        ensures cause { HasCause self.old.faults self.new.faults result }
        ensures start { length self.new.history.start ≡ length self.old.history.start }
        ensures fails { is_err result ≡ fails_next self.old.failures }
        ensures ok { OnOk result (self.new ≡ after_read self.old) }
        ensures err { OnErr result (self.new ≡ after_failure self.old) }
    {
        if self.schedule.next_fails() {
            self.faults = self.faults.saturating_add(1);
            return Err(Fault);
        }
        *into = block_of(&self.present, n);
        self.reads_made = self.reads_made.saturating_add(1);
        Ok(())
    }

    /// Has nothing to do, since all of it lies in memory.
    fn will_read(&mut self, told: Vec<BlockNo>)
        ensures kept { Kept self.old self.new }
        ensures faults { self.new.faults ≡ self.old.faults }
        ensures same { self.new ≡ self.old }
    {
        let _ = told;
    }
}

impl Disk for MemDisk {
    ghost history = { λ d. d.history };

    ghost opened = { λ d. d.opened };

    ghost borrow = { λ _. 0 };

    ghost wants = { λ path access. Unit {0} };

    ghost kept_history = { λ a b tells kept. kept.history };

    ghost kept_opened = { λ a b kept. kept.opened };

    ghost kept_borrow = { λ a b kept. refl };

    ghost open_blocks = { λ a access tells is. open_readable a access is };

    ghost open_size = { λ a access tells is. ap length (open_readable a access is) };

    ghost closed_size = { closed_readable };

    /// Takes no memory, and fails exactly where it is listed or stopped.
    fn open(&mut self, _path: &str, access: Access) -> Result<(), Fault>
        requires { self.old.opened ≡ None }
        ensures opened { OnOk result (self.new.opened ≡ Some access) }
        ensures failed { OnErr result (self.new.opened ≡ None) }
        ensures unchanged { IsTrue true → self.new.history ≡ self.old.history }
        ensures cause { HasCause self.old.faults self.new.faults result }
        ensures start { length self.new.history.start ≡ length self.old.history.start }
        ensures fails { is_err result ≡ fails_next self.old.failures }
        ensures ok { OnOk result (self.new ≡ record (after_call self.old) { opened = Some access }) }
        ensures err { OnErr result (self.new ≡ after_failure self.old) }
    {
        if self.schedule.next_fails() {
            self.faults = self.faults.saturating_add(1);
            return Err(Fault);
        }
        self.opened = Some(access);
        Ok(())
    }

    /// Fails exactly where it is listed or stopped, or finds no memory; it then changes no block.
    fn write(&mut self, n: BlockNo, from: &Block) -> Result<(), Fault>
        requires open { self.old.opened ≡ Some Access.Write }
        requires in_range { n < readable_len self.old }
        ensures open { self.new.opened ≡ self.old.opened }
        ensures size { readable_len self.new ≡ readable_len self.old }
        ensures effect { IsTrue true → WritesBlock self.old.history n from.now.bytes result self.new.history }
        ensures cause { HasCause self.old.faults self.new.faults result }
        ensures start { length self.new.history.start ≡ length self.old.history.start }
        ensures passes { OnOk result (fails_next self.old.failures ≡ false) }
        ensures ok { OnOk result (self.new ≡ after_write self.old n from.now.bytes) }
        ensures fails { OnErr result (Fails self.old self.new) }
    {
        if self.schedule.next_fails() {
            self.faults = self.faults.saturating_add(1);
            return Err(Fault);
        }
        match put_recorded(
            &mut self.calls,
            &mut self.first,
            &mut self.unsynced,
            &mut self.present,
            n,
            from,
        ) {
            Ok(()) => {
                self.schedule.pass_write();
                self.writes = self.writes.saturating_add(1);
                Ok(())
            }
            Err(Memory) => {
                self.faults = self.faults.saturating_add(1);
                self.refused = self.refused.saturating_add(1);
                Err(Fault)
            }
        }
    }

    /// Fails exactly where it is listed or stopped, or finds no memory; it then settles nothing.
    fn sync(&mut self) -> Result<(), Fault>
        requires { self.old.opened ≡ Some Access.Write }
        ensures open { self.new.opened ≡ self.old.opened }
        ensures size { readable_len self.new ≡ readable_len self.old }
        ensures effect { IsTrue true → Syncs self.old.history result self.new.history }
        ensures cause { HasCause self.old.faults self.new.faults result }
        ensures start { length self.new.history.start ≡ length self.old.history.start }
        ensures passes { OnOk result (fails_next self.old.failures ≡ false) }
        ensures ok { OnOk result (self.new ≡ after_sync self.old) }
        ensures fails { OnErr result (Fails self.old self.new) }
    {
        if self.schedule.next_fails() {
            self.faults = self.faults.saturating_add(1);
            return Err(Fault);
        }
        match self.calls.push(Done::Synced) {
            Ok(()) => {
                self.unsynced.clear();
                Ok(())
            }
            Err(_) => {
                self.faults = self.faults.saturating_add(1);
                self.refused = self.refused.saturating_add(1);
                Err(Fault)
            }
        }
    }
}
