ghost use Rattle.std.specs.Prelude.{◌≡◌, ◌≤◌, ◌<◌, ◌+◌, ◌*◌, ◌-◌, ◌^◌, ◌++◌, ◌∷◌, [], nat_lt, not, ◌&&◌, ◌||◌, ◌/◌, ℕ, length, IfOk, OnOk, if◌then◌else◌};
ghost use Rattle.std.specs.List.{All};
ghost use Rattle.reiser_bitmap.specs.Bits.{has};
ghost use Rattle.unit_plan.specs.Choice.{usable_units, is_among, is_data, holds_data, spare_runs};

use crate::Units;
use reiser_bitmap::{Bitmap, BlockNo, Memory, Run, Runs, is_reserved, usable_end};
use std::alloc::Global;

/// The blocks of a unit.
const BLOCKS_IN_UNIT: u64 = 256;

/// The maximal runs of spare units, ascending: units from unit 1 on with usable blocks that hold no data and are in none
/// of the lists.
pub fn spare_runs(
    alloc: Global,
    map: &Bitmap,
    system: &Units,
    metadata: &Units,
    data_: &Units,
) -> Result<Runs, Memory>
    requires system { All (λ u. u < usable_units map.now) system.now }
    requires metadata { All (λ u. u < usable_units map.now) metadata.now }
    requires data_ { All (λ u. u < usable_units map.now) data_.now }
    ensures exact { IfOk result (λ runs. runs ≡ spare_runs map.now system.now metadata.now data_.now) }
    ensures small { IfOk result (λ _. usable_units map.now < 2 ^ 60) }
{
    let units = usable_end(map.len()).div_ceil(BLOCKS_IN_UNIT);
    let mut chosen = Bitmap::new(alloc, units)?;
    mark(&mut chosen, system);
    mark(&mut chosen, metadata);
    mark(&mut chosen, data_);
    let mut runs = Runs::new(alloc);
    let mut first = 0;
    for u in 0..units + 1 {
        if is_spare(map, &chosen, u) {
            continue;
        }
        add_units(&mut runs, first, u)?;
        first = u + 1;
    }
    Ok(runs)
}

/// Puts units into a set.
pub(crate) fn mark(set: &mut Bitmap, units: &Units)
    requires { All (λ u. u < length set.old) units.now }
    ensures size { length set.new ≡ length set.old }
    ensures units { (u : ℕ) → has set.new u ≡ (has set.old u || is_among units.now u) }
{
    for i in 0..units.len() {
        set.insert(units.get(i));
    }
}

/// Whether a unit from unit 1 on has usable blocks, is not in the set, and holds no data.
fn is_spare(map: &Bitmap, chosen: &Bitmap, u: u64) -> bool
    requires { length chosen.now ≡ usable_units map.now }
    ensures { result ≡ (nat_lt 0 u && (nat_lt u (usable_units map.now) && not (has chosen.now u || holds_data map.now u))) }
{
    0 < u && u < chosen.len() && !(chosen.is_used(u) || holds_data(map, u))
}

/// Whether an unreserved used block lies in the unit.
fn holds_data(map: &Bitmap, u: u64) -> bool
    requires { 256 * u < length map.now }
    ensures { result ≡ holds_data map.now u }
{
    let blocks = map.len();
    let first = BLOCKS_IN_UNIT * u;
    let count = BLOCKS_IN_UNIT.min(blocks - first);
    for block in first..first + count {
        if is_data(map, block) {
            return true;
        }
    }
    false
}

/// Whether the block is used and not reserved.
fn is_data(map: &Bitmap, block: BlockNo) -> bool
    ensures { result ≡ is_data map.now block }
{
    map.is_used(block) && !is_reserved(block, map.len())
}

/// Appends the units from `first` to before `end` as a run, if there are any.
fn add_units(runs: &mut Runs, first: u64, end: u64) -> Result<(), Memory>
    requires { first ≤ end }
    ensures { OnOk result (runs.new ≡ (if nat_lt first end then runs.old ++ record { first = first; count = end - first } ∷ [] else runs.old)) }
{
    if first < end {
        runs.add(Run {
            first,
            count: end - first,
        })?;
    }
    Ok(())
}
