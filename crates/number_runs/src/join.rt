// Runs that touch, joined.
ghost use Rattle.std.specs.Prelude.{◌≡◌, ◌≤◌, ℕ, All, length, take};
ghost use Rattle.std.specs.List.Sorted.{IsNonDecreasingBy};
ghost use Rattle.number_runs.specs.Runs.{AreParted, HasNumbers, first_of, is_among};

use crate::run::Run;

/// Puts runs in order, and joins those that touch or overlap. It takes no memory.
pub fn join(runs: &mut Vec<Run>)
    requires { All HasNumbers runs.old.items }
    ensures same { (n : ℕ) → is_among runs.new.items n ≡ is_among runs.old.items n }
    ensures parted { AreParted runs.new.items }
{
    runs.sort_unstable_by_key(|run| run.first);
    let kept = join_neighbours(runs);
    runs.truncate(kept);
}

/// Joins neighbours that touch or overlap, in place, and answers how many runs are left. These stand in front.
fn join_neighbours(runs: &mut [Run]) -> usize
    requires ascending { IsNonDecreasingBy first_of runs.old }
    requires some { All HasNumbers runs.old }
    ensures within { result ≤ length runs.new }
    ensures same { (n : ℕ) → is_among (take result runs.new) n ≡ is_among runs.old n }
    ensures parted { AreParted (take result runs.new) }
{
    let Some(first) = runs.first() else {
        return 0;
    };
    let mut joined = *first;
    let mut kept = 0;
    for i in 1..runs.len() {
        let run = runs[i];
        if joined.reaches(&run) {
            joined.last = joined.last.max(run.last);
        } else {
            runs[kept] = joined;
            kept += 1;
            joined = run;
        }
    }
    runs[kept] = joined;
    kept + 1
}
