ghost use Rattle.std.specs.Prelude.{◌≡◌, ◌≤◌, ◌<◌, ◌+◌, ◌^◌, ◌||◌, ℕ, length, IfOk};
ghost use Rattle.std.specs.List.{All};
ghost use Rattle.reiser_bitmap.specs.Bits.{has};
ghost use Rattle.unit_plan.specs.Choice.{is_in, is_among};
ghost use Rattle.unit_plan.specs.Chunks.{FitsVolume, role_of, usable_end, is_in_runs};
ghost use Rattle.unit_plan.specs.Roles.{role_in};

use crate::Plan;
use crate::chunk::Role;
use crate::spare::mark;
use reiser_bitmap::{Bitmap, Memory, Run, Runs};
use std::alloc::Global;
use std::marker::Model;

/// The blocks of a unit.
const BLOCKS_IN_UNIT: u64 = 256;

/// The sets of units by which the role of a unit is told.
#[derive(Drop)]
pub struct Roles {
    system: Bitmap,
    metadata: Bitmap,
    unallocated: Bitmap,
    usable: u64,
}

impl Model for Roles {
    ghost use Rattle.unit_plan.specs.Roles.{RoleSets};

    ghost Value = { RoleSets };

    ghost view = { λ r. record { system = r.system; metadata = r.metadata; unallocated = r.unallocated; usable = r.usable } };
}

impl Roles {
    /// The roles of the units of a plan for a volume of so many blocks.
    pub fn new(alloc: Global, plan: &Plan, blocks: u64) -> Result<Roles, Memory>
        requires small { blocks < 2 ^ 60 }
        requires units { FitsVolume plan.now blocks }
        ensures usable { IfOk result (λ roles. roles.usable ≡ usable_end blocks) }
        ensures roles { IfOk result (λ roles. (u : ℕ) → role_in roles u ≡ role_of plan.now blocks u) }
    {
        let units = blocks.div_ceil(BLOCKS_IN_UNIT);
        let mut system = Bitmap::new(alloc, units)?;
        let mut metadata = Bitmap::new(alloc, units)?;
        let mut unallocated = Bitmap::new(alloc, units)?;
        mark(&mut system, &plan.system);
        mark(&mut metadata, &plan.metadata);
        mark_runs(&mut unallocated, &plan.unallocated);
        Ok(Roles {
            system,
            metadata,
            unallocated,
            usable: 16 * (blocks / 16),
        })
    }

    /// The role of a unit.
    pub fn role(&self, u: u64) -> Option<Role>
        requires { u < 2 ^ 56 }
        ensures { result ≡ role_in self.now u }
    {
        if u == 0 || self.usable <= BLOCKS_IN_UNIT * u || self.unallocated.is_used(u) {
            return None;
        }
        if self.system.is_used(u) {
            Some(Role::System)
        } else if self.metadata.is_used(u) {
            Some(Role::Metadata)
        } else {
            Some(Role::Data)
        }
    }
}

/// Puts the units of runs into a set.
fn mark_runs(set: &mut Bitmap, runs: &Runs)
    requires small { length set.old < 2 ^ 60 }
    requires inside { All (λ r. r.first + r.count ≤ length set.old) runs.now }
    ensures size { length set.new ≡ length set.old }
    ensures units { (u : ℕ) → has set.new u ≡ (has set.old u || is_in_runs runs.now u) }
{
    for i in 0..runs.len() {
        mark_run(set, runs.get(i));
    }
}

/// Puts the units of a run into a set.
fn mark_run(set: &mut Bitmap, run: Run)
    requires small { length set.old < 2 ^ 60 }
    requires inside { run.first + run.count ≤ length set.old }
    ensures size { length set.new ≡ length set.old }
    ensures units { (u : ℕ) → has set.new u ≡ (has set.old u || is_in run.first run.count u) }
{
    for u in run.first..run.first + run.count {
        set.insert(u);
    }
}
