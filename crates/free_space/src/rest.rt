ghost use Rattle.std.specs.Prelude.{◌≡◌, ◌≤◌, ◌<◌, ◌+◌, ◌-◌, ◌^◌, ◌∷◌, [], length, slice_get, ℕ, Some, IfSome, MatchOption};
ghost use Rattle.free_space.specs.Gaps.{behind, gap, gaps};

use crate::range::{Range, UsedRanges};

/// What is left of a block group: the addresses from one on to an end, and the used ranges that were not passed yet.
#[derive(Clone, Copy)]
pub(crate) struct Rest<U: UsedRanges> {
    pub(crate) at: u64,
    pub(crate) end: u64,
    pub(crate) used: U,
}

impl<U: UsedRanges> Rest<U> {
    /// Takes the next free run. Where there is none, the used ranges that begin before the end are passed.
    pub(crate) fn take_run(&mut self) -> Option<Range>
        requires live { U.is_live self.old.used }
        ensures live { U.is_live self.new.used }
        ensures end { self.new.end ≡ self.old.end }
        ensures runs { MatchOption result ((gaps self.old.at self.old.end (U.ahead self.old.used) ≡ []) × (gaps self.new.at self.new.end (U.ahead self.new.used) ≡ [])) (λ run. gaps self.old.at self.old.end (U.ahead self.old.used) ≡ run ∷ gaps self.new.at self.new.end (U.ahead self.new.used)) }
        ensures behind { behind self.old.end (U.ahead self.new.used) ≡ behind self.old.end (U.ahead self.old.used) }
        ensures few { length (U.ahead self.new.used) ≤ length (U.ahead self.old.used) }
        ensures passed { MatchOption result (U.ahead self.new.used ≡ behind self.old.end (U.ahead self.old.used)) (λ _. Unit {0}) }
    {
        while let Some(range) = self.next_within() {
            let from = self.at;
            self.at = from.max(range.address + range.length);
            self.used.pass();
            if from < range.address {
                return Some(range_between(from, range.address));
            }
        }
        self.take_last()
    }

    /// The next used range, where it begins before the end.
    fn next_within(&self) -> Option<Range>
        requires live { U.is_live self.now.used }
        ensures next { MatchOption result (((at : ℕ) → gaps at self.now.end (U.ahead self.now.used) ≡ gap at self.now.end) × (U.ahead self.now.used ≡ behind self.now.end (U.ahead self.now.used)))
            (λ r. (slice_get (U.ahead self.now.used) 0 ≡ Some r) × (r.address < self.now.end)) }
        ensures small { IfSome result (λ r. r.address + r.length < 2 ^ 64) }
    {
        let Some(range) = self.used.first() else {
            return None;
        };
        if range.address < self.end {
            Some(range)
        } else {
            None
        }
    }

    /// Takes all that is left, where there is any.
    fn take_last(&mut self) -> Option<Range>
        ensures end { self.new.end ≡ self.old.end }
        ensures used { self.new.used ≡ self.old.used }
        ensures runs { MatchOption result (gap self.old.at self.old.end ≡ []) (λ run. gap self.old.at self.old.end ≡ run ∷ []) }
        ensures at { MatchOption result (self.new.at ≡ self.old.at) (λ _. self.new.at ≡ self.old.end) }
    {
        if self.at >= self.end {
            return None;
        }
        let run = range_between(self.at, self.end);
        self.at = self.end;
        Some(run)
    }

    /// How many free runs there are.
    pub(crate) fn count_runs(mut self) -> u32
        requires live { U.is_live self.used }
        requires few { length (U.ahead self.used) + 1 < 2 ^ 32 }
        ensures { result ≡ length (gaps self.at self.end (U.ahead self.used)) }
    {
        let mut count = 0;
        while let Some(_) = self.take_run() {
            count += 1;
        }
        count
    }
}

/// The addresses from one on to another.
fn range_between(address: u64, end: u64) -> Range
    requires { address ≤ end }
    ensures { (result.address ≡ address) × (result.length ≡ end - address) }
{
    Range {
        address,
        length: end - address,
    }
}
