use outside::Memory;
use outside_mem::MemDisk;
use std::alloc::Global;

/// Which of its values each block has, or each of its sectors, that waited as the power failed.
#[derive(Clone, Copy)]
pub enum Choice {
    /// The one that it had at the last sync.
    Synced,
    /// The one that was written last.
    Written,
    /// One and the other in turn.
    InTurn,
    /// Any of them in each sector, by numbers that follow from this one and from how many blocks there are.
    Torn(u32),
}

/// A number that is one short of a multiple of each number up to 10: of as many values it chooses the last.
const LAST: u32 = 5039;

/// The next number of a random sequence, whose upper half is taken.
fn next(state: u32) -> u32 {
    state.wrapping_mul(1_664_525).wrapping_add(1_013_904_223)
}

/// Eight numbers for each of so many blocks, of the random sequence that begins with this one.
fn eights(alloc: Global, count: u64, first: u32) -> Result<Vec<[u32; 8]>, Memory> {
    let mut state = first;
    let mut all = Vec::new(alloc);
    for _ in 0..count {
        let mut eight = [0; 8];
        for s in 0..8usize {
            state = next(state);
            eight[s] = state >> 16;
        }
        all.push(eight)?;
    }
    Ok(all)
}

impl Choice {
    /// The number for the block of this place among those that wait, where its sectors have all the same.
    fn number(self, place: u64) -> u32 {
        match self {
            Choice::Synced | Choice::Torn(_) => 0,
            Choice::Written => LAST,
            Choice::InTurn => if place % 2 == 0 { 0 } else { LAST },
        }
    }

    /// The numbers for so many blocks.
    fn numbers(self, alloc: Global, count: u64) -> Result<Vec<u32>, Memory> {
        let mut numbers = Vec::new(alloc);
        for place in 0..count {
            numbers.push(self.number(place))?;
        }
        Ok(numbers)
    }

    /// What a crash leaves of a disk where at most so many blocks wait.
    pub(crate) fn left(self, alloc: Global, disk: &MemDisk, count: u64) -> Result<MemDisk, Memory> {
        if let Choice::Torn(seed) = self {
            let many = u32::try_from(count)
                .unwrap_or(0)
                .wrapping_mul(2_654_435_761);
            let first = seed.wrapping_mul(2_246_822_519).wrapping_add(many);
            return disk.after_torn_crash(&eights(alloc, count, first)?);
        }
        disk.after_crash(&self.numbers(alloc, count)?)
    }
}
