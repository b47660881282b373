// Numbers as they are gathered.
ghost use Rattle.std.specs.Prelude.{◌≡◌, ℕ, false, ◌||◌, OnOk};
ghost use Rattle.number_runs.specs.Runs.{is_among, is_in};

use crate::join::join;
use crate::run::Run;
use crate::runs::Runs;
use outside::Memory;
use std::alloc::Global;
use std::marker::Model;

/// For how many runs there is room at least.
const ROOM: usize = 1 << 12;

/// A set of numbers that grows, seen as the test for its numbers. Its runs are joined whenever there is no room, and then
/// there is room for an eighth more.
#[derive(Drop)]
pub struct Gathered {
    runs: Vec<Run>,
}

impl Model for Gathered {
    ghost use Rattle.std.specs.Prelude.{List, All};
    ghost use Rattle.number_runs.specs.Runs.{HasNumbers};
    ghost use Rattle.number_runs.specs.declared.run.Run.{Run as RunOf};

    ghost Value = { List RunOf };

    ghost view = { λ g. g.runs.items };

    ghost invariant = { λ g. All HasNumbers g.runs.items };
}

impl Gathered {
    /// No numbers.
    pub fn new(alloc: Global) -> Gathered
        ensures { (n : ℕ) → is_among result n ≡ false }
    {
        Gathered {
            runs: Vec::new(alloc),
        }
    }

    /// Adds the numbers of a run.
    pub fn add(&mut self, run: Run) -> Result<(), Memory>
        ensures { OnOk result ((n : ℕ) → is_among self.new n ≡ (is_in run n || is_among self.old n)) }
    {
        if run.last < run.first {
            return Ok(());
        }
        self.make_room()?;
        self.runs.push(run)?;
        Ok(())
    }

    /// Joins the runs where there is no room for one more, and makes room.
    fn make_room(&mut self) -> Result<(), Memory>
        ensures { (n : ℕ) → is_among self.new n ≡ is_among self.old n }
    {
        if self.runs.len() < self.runs.capacity() {
            return Ok(());
        }
        join(&mut self.runs);
        self.runs.reserve_exact(self.runs.len() / 8 + ROOM)?;
        Ok(())
    }

    /// All of them, in order.
    pub fn into_runs(self) -> Runs
        ensures { (n : ℕ) → is_among result n ≡ is_among self n }
    {
        let Gathered { runs } = self;
        Runs::joined(runs)
    }
}
