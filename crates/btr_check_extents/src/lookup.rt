// How often a reference is made.
ghost use Rattle.std.specs.Prelude.{◌≡◌, ◌<◌, List, All, length, slice_index_or, true, false};
ghost use Rattle.std.specs.List.{count_by, sum_by};
ghost use Rattle.std.specs.Option.{MatchOption};
ghost use Rattle.btr_check_references.specs.Counts.{AreCountsOf, AreJoined, is_same, made_in, made_of};
ghost use Rattle.btr_check_references.specs.declared.gather.MadeCount.{MadeCount as Counted};
ghost use Rattle.btr_check_rules.specs.References.{Made as MadeOnce};

use btr_check_references::{Made, MadeCount};

/// Where a reference stands among references that ascend, each once; None where it is not among them.
pub fn find(counts: &[MadeCount], made: &Made) -> Option<usize>
    requires { AreJoined counts.now }
    ensures { MatchOption result (All (λ e. is_same (made_in e) (made_of made.now) ≡ false) counts.now)
        (λ i. (i < length counts.now) × ((d : Counted) → is_same (made_in (slice_index_or counts.now i d)) (made_of made.now) ≡ true)) }
{
    counts.binary_search_by(|entry| entry.made.order(made)).ok()
}

/// How often a reference is made, of those that were counted.
pub fn count_of(counts: &[MadeCount], made: &Made) -> u64
    requires { AreJoined counts.now }
    ensures { (list : List MadeOnce) → AreCountsOf list counts.now → result ≡ count_by (λ m. is_same m (made_of made.now)) list }
{
    match find(counts, made) {
        Some(i) => counts[i].count,
        None => 0,
    }
}

/// How often all of these are made.
pub fn sum_of(counts: &[MadeCount]) -> u128
    ensures { result ≡ sum_by (λ (e : Counted). e.count) counts.now }
{
    let mut sum = 0;
    for entry in counts {
        sum += entry.count as u128;
    }
    sum
}
