// Sets of numbers, beside each other.
ghost use Rattle.std.specs.Prelude.{◌≡◌, ◌≤◌, ◌<◌, ℕ, not, ◌&&◌, All};
ghost use Rattle.std.specs.List.Sorted.{IsPartitionPoint};
ghost use Rattle.number_runs.specs.Runs.{AreParted, HasNumbers, IsFirst, StandsFrom, is_among, is_in};

use crate::join::join;
use crate::run::Run;
use std::marker::Model;

/// A set of numbers, seen as the test for them: runs that ascend, with a number between each two.
#[derive(Drop)]
pub struct Runs {
    runs: Vec<Run>,
}

impl Model for Runs {
    ghost use Rattle.std.specs.Prelude.{List};
    ghost use Rattle.number_runs.specs.Runs.{AreParted};
    ghost use Rattle.number_runs.specs.declared.run.Run.{Run as RunOf};

    ghost Value = { List RunOf };

    ghost view = { λ r. r.runs.items };

    ghost invariant = { λ r. AreParted r.runs.items };
}

/// How many of these runs end below a number.
fn ended(runs: &[Run], number: u64) -> usize
    requires { AreParted runs.now }
    ensures { IsPartitionPoint (λ r. r.last < number) (λ r. number ≤ r.last) runs.now result }
{
    runs.partition_point(|run| run.last < number)
}

impl Runs {
    /// The numbers of some runs in any order, each of which has some.
    pub(crate) fn joined(runs: Vec<Run>) -> Runs
        requires { All HasNumbers runs.items }
        ensures { (n : ℕ) → is_among result n ≡ is_among runs.items n }
    {
        let mut runs = runs;
        join(&mut runs);
        Runs { runs }
    }

    /// Whether a number is among them.
    pub fn has(&self, number: u64) -> bool
        ensures { result ≡ is_among self.now number }
    {
        match self.from(number) {
            Some(run) => run.first <= number,
            None => false,
        }
    }

    /// The first run with a number from this one on.
    fn from(&self, number: u64) -> Option<Run>
        ensures { StandsFrom (is_among self.now) number result }
    {
        let at = ended(&self.runs, number);
        if at < self.runs.len() {
            Some(self.runs[at])
        } else {
            None
        }
    }

    /// The first number of a run that is not among them.
    fn first_missing(&self, run: &Run) -> Option<u64>
        requires { HasNumbers run.now }
        ensures { IsFirst (λ n. is_in run.now n && not (is_among self.now n)) result }
    {
        match self.from(run.first) {
            Some(own) if own.first <= run.first => {
                if own.last < run.last {
                    Some(own.last + 1)
                } else {
                    None
                }
            }
            _ => Some(run.first),
        }
    }

    /// The first number of a run that is among them.
    fn first_present(&self, run: &Run) -> Option<u64>
        requires { HasNumbers run.now }
        ensures { IsFirst (λ n. is_in run.now n && is_among self.now n) result }
    {
        match self.from(run.first) {
            Some(own) if own.first <= run.last => Some(own.first.max(run.first)),
            _ => None,
        }
    }

    /// The first of these numbers that is not among others.
    pub fn first_outside(&self, others: &Runs) -> Option<u64>
        ensures { IsFirst (λ n. is_among self.now n && not (is_among others.now n)) result }
    {
        for run in &self.runs {
            if let Some(n) = others.first_missing(run) {
                return Some(n);
            }
        }
        None
    }

    /// The first of these numbers that is among others too.
    pub fn first_shared(&self, others: &Runs) -> Option<u64>
        ensures { IsFirst (λ n. is_among self.now n && is_among others.now n) result }
    {
        for run in &self.runs {
            if let Some(n) = others.first_present(run) {
                return Some(n);
            }
        }
        None
    }
}
