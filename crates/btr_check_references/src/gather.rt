// The references that nodes make, counted.
ghost use Rattle.std.specs.Prelude.{◌≡◌, ◌≤◌, ◌<◌, ◌+◌, ◌++◌, ◌∷◌, [], ℕ, List, length, take, drop, IfOk, OnOk};
ghost use Rattle.btr_check_references.specs.Counts.{AreCountsOf, AreJoined, AreOrdered, IsJoinedWith, CountsAs, made_of};
ghost use Rattle.btr_check_rules.specs.References.{Made as MadeOnce};

use crate::made::Made;
use btr_check_rules::btr_reader::btr_reader_walk::Memory;
use std::alloc::Global;

/// A reference, and how often it is made.
#[derive(Clone, Copy, Debug)]
pub struct MadeCount {
    pub made: Made,
    /// At least 1.
    pub count: u64,
}

/// How many references more are gathered at least, before those that are the same are joined.
const GATHERED: usize = 1 << 16;

/// References as they are met. Those that are the same are joined from time to time, so that there is one entry for each
/// different one, an eighth more, and at most 65536 besides.
#[derive(Drop)]
pub struct References {
    pub entries: Vec<MadeCount>,
    /// At how many entries they are joined next.
    limit: usize,
}

impl References {
    /// No references.
    pub fn new(alloc: Global) -> References
        ensures { AreCountsOf [] result.entries.items }
    {
        References {
            entries: Vec::new(alloc),
            limit: GATHERED,
        }
    }

    /// Adds one.
    pub fn add(&mut self, made: Made) -> Result<(), Memory>
        ensures { (before : List MadeOnce) → AreCountsOf before self.old.entries.items → OnOk result (AreCountsOf (before ++ made_of made ∷ []) self.new.entries.items) }
    {
        self.make_room()?;
        self.entries.push(MadeCount { made, count: 1 })?;
        Ok(())
    }

    /// Joins the references where there are many more than when they were last joined, and makes room for one.
    fn make_room(&mut self) -> Result<(), Memory>
        ensures { OnOk result (CountsAs self.old.entries.items self.new.entries.items) }
    {
        if self.entries.len() >= self.limit {
            self.join()?;
        }
        if self.entries.len() == self.entries.capacity() {
            self.entries
                .reserve_exact(self.entries.len() / 8 + GATHERED)?;
        }
        Ok(())
    }

    /// Sorts them, and joins those that are the same.
    fn join(&mut self) -> Result<(), Memory>
        ensures same { OnOk result (CountsAs self.old.entries.items self.new.entries.items) }
        ensures joined { OnOk result (AreJoined self.new.entries.items) }
    {
        self.entries.sort_unstable_by(|a, b| a.made.order(&b.made));
        let kept = join_same(self.entries.as_mut_slice())?;
        self.entries.truncate(kept);
        self.limit = kept.saturating_add(kept / 8 + GATHERED);
        Ok(())
    }

    /// All that were added: each different one once with its count, in ascending order.
    pub fn into_counts(mut self) -> Result<Vec<MadeCount>, Memory>
        ensures counts { (made : List MadeOnce) → AreCountsOf made self.entries.items → IfOk result (λ counts. AreCountsOf made counts.items) }
        ensures joined { IfOk result (λ counts. AreJoined counts.items) }
    {
        self.join()?;
        let References { entries, limit: _ } = self;
        Ok(entries)
    }
}

/// Joins neighbours that are the same, and answers how many are left, which stand in front.
fn join_same(entries: &mut [MadeCount]) -> Result<usize, Memory>
    ensures same { IfOk result (λ kept. CountsAs entries.old (take kept entries.new)) }
    ensures joined { IfOk result (λ kept. AreOrdered entries.old → AreJoined (take kept entries.new)) }
{
    let mut kept = 0;
    for i in 0..entries.len() {
        let entry = entries[i];
        kept = join_next(entries, kept, entry)?;
    }
    Ok(kept)
}

/// Puts an entry behind the first ones, or adds it to the last of these where that is the same. Answers how many those are
/// then.
fn join_next(entries: &mut [MadeCount], kept: usize, entry: MadeCount) -> Result<usize, Memory>
    requires { kept < length entries.old }
    ensures rest { drop (kept + 1) entries.new ≡ drop (kept + 1) entries.old }
    ensures within { IfOk result (λ n. n ≤ kept + 1) }
    ensures joined { IfOk result (λ n. IsJoinedWith (take kept entries.old) entry (take n entries.new)) }
{
    if kept > 0 && entries[kept - 1].made.is_same(&entry.made) {
        let count = both(entries[kept - 1].count, entry.count)?;
        entries[kept - 1].count = count;
        Ok(kept)
    } else {
        entries[kept] = entry;
        Ok(kept + 1)
    }
}

/// The sum of two counts. One of more than 64 bits is told as a lack of memory; references are counted one by one, so there is
/// none in practice.
fn both(a: u64, b: u64) -> Result<u64, Memory>
    ensures { IfOk result (λ sum. sum ≡ a + b) }
{
    a.checked_add(b).ok_or(Memory)
}
