ghost use Rattle.std.specs.Prelude.{◌≡◌, ◌≤◌, ◌<◌, ◌+◌, ◌-◌, ◌/◌, ◌^◌, ◌++◌, ◌∷◌, [], nat_le, nat_lt, ◌&&◌, length, take, drop, max, IfOk, IfErr, OnOk, if◌then◌else◌};
ghost use Rattle.std.specs.List.{fold, range_with_len};
ghost use Rattle.unit_plan.specs.Choice.{HasEnoughSpace, IsPlan, IsPlanAt, IsAnswer, IsSmallNeed, lowest_long, others, is_other};

use crate::spare::spare_runs;
use crate::staying::staying;
use crate::{Need, Plan, PlanAnswer, Units};
use reiser_bitmap::{Bitmap, Memory, Run, Runs};
use std::alloc::Global;

/// The blocks of a unit.
const BLOCKS_IN_UNIT: u64 = 256;

/// The units for a conversion that needs so many, each number below 2^60.
///
/// The units for the chunk tree are the first ones of the lowest run that is long enough. Of the other free units in
/// ascending order the first are for metadata, and the next for data. NoSpace comes exactly where too few units are free,
/// or no run is long enough.
pub fn choose(alloc: Global, map: &Bitmap, need: &Need) -> Result<Plan, PlanAnswer>
    requires { IsSmallNeed need.now }
    ensures ok { IfOk result (IsPlan map.now need.now) }
    ensures enough { IfOk result (λ _. HasEnoughSpace map.now need.now) }
    ensures err { IfErr result (IsAnswer map.now need.now) }
{
    let runs = map.free_runs()?;
    let free = map.free_units();
    let longest_run = longest(&runs);
    if free < need.total() || longest_run < need.system {
        return Err(PlanAnswer::NoSpace {
            needed: need.total(),
            free,
            run_needed: need.system,
            longest_run,
        });
    }
    let plan = plan_at(alloc, map, need, first_long(&runs, need.system))?;
    Ok(plan)
}

/// The most units that a run has.
fn longest(runs: &Runs) -> u64
    ensures { result ≡ fold (λ most run. max most run.count) 0 runs.now }
{
    let mut most = 0;
    for i in 0..runs.len() {
        most = most.max(runs.get(i).count);
    }
    most
}

/// Where the first run begins that has so many units.
fn first_long(runs: &Runs, count: u64) -> u64
    ensures { result ≡ lowest_long count runs.now }
{
    for i in 0..runs.len() {
        let run = runs.get(i);
        if count <= run.count {
            return run.first;
        }
    }
    0
}

/// The plan whose units for the chunk tree begin at `first`.
fn plan_at(alloc: Global, map: &Bitmap, need: &Need, first: u64) -> Result<Plan, Memory>
    requires small { IsSmallNeed need.now }
    requires inside { first + need.now.system ≤ length map.now / 256 }
    ensures { IfOk result (IsPlanAt map.now need.now first) }
{
    let units = map.len() / BLOCKS_IN_UNIT;
    let taken = Run {
        first,
        count: need.system,
    };
    let system = consecutive(alloc, taken)?;
    let metadata = free_others(alloc, map, units, taken, 0, need.metadata)?;
    let data_ = free_others(alloc, map, units, taken, need.metadata, need.data_)?;
    let spare = spare_runs(alloc, map, &system, &metadata, &data_)?;
    let unallocated = staying(alloc, &spare)?;
    Ok(Plan {
        system,
        metadata,
        data_,
        unallocated,
    })
}

/// The units of a run.
fn consecutive(alloc: Global, run: Run) -> Result<Units, Memory>
    requires { run.first + run.count < 2 ^ 64 }
    ensures { IfOk result (λ units. units ≡ range_with_len run.first run.count) }
{
    let mut units = Units::new(alloc);
    for u in run.first..run.first + run.count {
        units.add(u)?;
    }
    Ok(units)
}

/// So many of the volume's `volume` units that are free and not taken, ascending, without the lowest `skip` of these.
fn free_others(
    alloc: Global,
    map: &Bitmap,
    volume: u64,
    taken: Run,
    skip: u64,
    wanted: u64,
) -> Result<Units, Memory>
    requires volume { volume ≡ length map.now / 256 }
    requires taken { taken.first + taken.count < 2 ^ 64 }
    ensures { IfOk result (λ units. units ≡ take wanted (drop skip (others map.now taken.first taken.count))) }
{
    let mut units = Units::new(alloc);
    let mut seen = 0;
    for u in 0..volume {
        if !is_other(map, taken, u) {
            continue;
        }
        add_in_turn(&mut units, u, seen, skip, wanted)?;
        seen += 1;
    }
    Ok(units)
}

/// Whether the unit is free and not taken.
fn is_other(map: &Bitmap, taken: Run, u: u64) -> bool
    requires { taken.first + taken.count < 2 ^ 64 }
    ensures { result ≡ is_other map.now taken.first taken.count u }
{
    map.unit_is_free(u) && !(taken.first..taken.first + taken.count).contains(&u)
}

/// Appends unit number `seen` where it is one of the `wanted` ones behind the first `skip`.
fn add_in_turn(units: &mut Units, u: u64, seen: u64, skip: u64, wanted: u64) -> Result<(), Memory>
    ensures { OnOk result (units.new ≡ (if nat_le skip seen && nat_lt (seen - skip) wanted then units.old ++ u ∷ [] else units.old)) }
{
    if skip <= seen && seen - skip < wanted {
        units.add(u)?;
    }
    Ok(())
}
