// Commands that are stopped behind their writes, and what crashes leave then.
use crate::block_access::block;
use crate::broken::Broken;
use crate::choice::Choice;
use crate::old::Old;
use crate::run::{Trouble, done, ran};
use outside_mem::MemDisk;
use vol_block::Block;

/// Behind which numbers of writes a command is stopped: those that leave the remainder `first` by `step`.
#[derive(Clone, Copy)]
pub struct Stops {
    pub first: u64,
    pub step: u64,
}

impl Stops {
    /// All of them.
    pub const ALL: Stops = Stops { first: 0, step: 1 };

    fn has(self, writes: u64) -> bool {
        self.step != 0 && writes % self.step == self.first
    }
}

impl Old {
    /// Recovers what a crash left, and sees that `recover` has nothing to do a second time: whether the volume is Btrfs.
    fn recovered(&self, left: &mut MemDisk) -> Result<bool, Broken> {
        let told = done(self.alloc, "recover x", left)?;
        done(self.alloc, "recover x", left)?;
        let writes = left.writes();
        if writes != 0 {
            return Err(Broken::Again(writes));
        }
        Ok(told.as_slice().starts_with(b"volume is btrfs\n"))
    }

    /// Sees that what a crash left has the rows of the volume behind `recover`, and is the volume, or is the one that a conversion makes of it
    /// by block 16 and becomes it by a rollback: whether it was still Btrfs.
    fn recovers(&self, left: &mut MemDisk, superblock: &Block) -> Result<bool, Broken> {
        let is_btrfs = self.recovered(left)?;
        self.has_rows(left)?;
        if is_btrfs {
            self.goes_back(left, superblock)?;
        }
        self.is_back(left)?;
        Ok(is_btrfs)
    }

    /// Rolls back what has to have this superblock of Btrfs.
    fn goes_back(&self, left: &mut MemDisk, superblock: &Block) -> Result<(), Broken> {
        if block(left, 16)? != *superblock {
            return Err(Broken::Changed(16));
        }
        done(self.alloc, "rollback x", left)?;
        Ok(())
    }

    /// What a crash leaves by a choice of a disk where a command is stopped behind so many writes.
    fn crashed(
        &self,
        word: &str,
        base: &MemDisk,
        writes: u64,
        choice: Choice,
    ) -> Result<MemDisk, Broken> {
        let mut disk = base.after_crash(&[])?;
        let ended = ran(self.alloc, word, &mut disk, Trouble::Power(writes))?;
        if ended.status != 3 {
            return Err(Broken::Status(ended.status));
        }
        Ok(choice.left(self.alloc, &disk, writes)?)
    }

    /// Sees that what a crash left recovers where `recover` is stopped behind any of its writes, and once it is not: whether it was still Btrfs.
    fn recovers_in_the_end(
        &self,
        left: &mut MemDisk,
        choice: Choice,
        superblock: &Block,
    ) -> Result<bool, Broken> {
        let last = self.writes_of("recover x", left)?;
        for writes in 1..last.saturating_add(1) {
            let mut again = self.crashed("recover x", left, writes, choice)?;
            self.recovers(&mut again, superblock)?;
        }
        self.recovers(left, superblock)
    }

    /// Stops a command behind so many writes, and looks at what crashes leave by each of these choices: how many leave it Btrfs.
    fn stop(
        &self,
        word: &str,
        base: &MemDisk,
        writes: u64,
        choices: &[Choice],
        superblock: &Block,
    ) -> Result<u64, Broken> {
        let mut btrfs = 0u64;
        for choice in choices {
            let mut left = self.crashed(word, base, writes, *choice)?;
            if self.recovers_in_the_end(&mut left, *choice, superblock)? {
                btrfs = btrfs.saturating_add(1);
            }
        }
        Ok(btrfs)
    }

    /// How often a command writes that nothing stops.
    fn writes_of(&self, word: &str, base: &MemDisk) -> Result<u64, Broken> {
        let mut whole = base.after_crash(&[])?;
        done(self.alloc, word, &mut whole)?;
        Ok(whole.writes())
    }

    /// How often the conversion of the volume writes.
    pub fn converted_writes(&self) -> Result<u64, Broken> {
        self.writes_of("convert x", &self.copy()?)
    }

    /// Runs a command over copies of a disk that holds this volume in one format or the other, stops it behind these numbers of writes
    /// and where all are made, and looks each time at what crashes leave by each of these choices: how many leave it Btrfs.
    ///
    /// Whatever a crash leaves has the rows of the volume behind `recover`, which has nothing to do a second time and can itself be stopped; and
    /// it is the volume, or the one that a conversion makes of it by block 16, and becomes the volume by a rollback.
    pub fn stops(
        &self,
        word: &str,
        base: &MemDisk,
        stops: Stops,
        choices: &[Choice],
    ) -> Result<u64, Broken> {
        let superblock = block(&mut self.converted()?, 16)?;
        let last = self.writes_of(word, base)?;
        let mut btrfs = 0u64;
        for writes in 0..last.saturating_add(1) {
            if stops.has(writes) {
                let left = self.stop(word, base, writes, choices, &superblock)?;
                btrfs = btrfs.saturating_add(left);
            }
        }
        Ok(btrfs)
    }

    /// The same behind each of its last writes, five at most, with sectors torn by so many random choices.
    pub fn torn_ends(&self, word: &str, base: &MemDisk, seeds: u32) -> Result<u64, Broken> {
        let superblock = block(&mut self.converted()?, 16)?;
        let last = self.writes_of(word, base)?;
        let mut btrfs = 0u64;
        for writes in last.saturating_sub(4)..last.saturating_add(1) {
            for seed in 0..seeds {
                let left = self.stop(word, base, writes, &[Choice::Torn(seed)], &superblock)?;
                btrfs = btrfs.saturating_add(left);
            }
        }
        Ok(btrfs)
    }
}
