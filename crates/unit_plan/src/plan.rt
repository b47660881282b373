use crate::Units;
use reiser_bitmap::{Memory as NoMemory, Runs};
use thiserror::Error;

/// Which units of a volume get which use. The lists ascend, and no unit is in two of them.
#[derive(Drop)]
pub struct Plan {
    /// Those of the chunk tree.
    pub system: Units,
    /// Those of all other trees.
    pub metadata: Units,
    /// Those of copies and tails. A unit that holds an unreserved used block is used for data as it is, and stands in no
    /// list. Nor does a unit without use that lies in a run that does not stay unallocated.
    pub data_: Units,
    /// Of the maximal runs of units from unit 1 on that have no use, those that stay so: each of at least 256 units, and
    /// the longest ones, until they have 1024 units and a 64th of all.
    pub unallocated: Runs,
}

/// Why there is no plan.
#[derive(Clone, Copy, Debug, PartialEq, Eq, Error)]
pub enum PlanAnswer {
    /// Units of 1 MiB are missing.
    #[error("no space: {needed} units needed, {free} free, {run_needed} in one run, longest {longest_run}")]
    NoSpace {
        /// All that are needed.
        needed: u64,
        /// All that are free.
        free: u64,
        /// Those that are needed in one run.
        run_needed: u64,
        /// Those of the longest free run.
        longest_run: u64,
    },
    /// There was no memory.
    #[error("out of memory")]
    Memory,
}

impl From<NoMemory> for PlanAnswer {
    ghost use Rattle.std.specs.Prelude.{◌≡◌};
    ghost use Rattle.unit_plan.specs.declared.plan.PlanAnswer.TheVariants.{Memory};

    ghost from_gives = { λ _ e. e ≡ Memory };

    fn from(_: NoMemory) -> Self {
        PlanAnswer::Memory
    }
}
