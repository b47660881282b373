ghost use Rattle.std.specs.Prelude.{◌≡◌, ◌<◌, ◌≤◌, ◌+◌, ◌^◌, ◌==◌, nat_lt, nat_le, ◌||◌, ℕ, slice_index, IfOk, if◌then◌else◌};
ghost use Rattle.std.specs.List.{AllPairs, filter};
ghost use Rattle.unit_plan.specs.Staying.{units_in, staying, is_longer};

use reiser_bitmap::{Memory, Runs};
use std::alloc::Global;

/// A run of so many units stays unallocated.
const LONG: u64 = 256;

/// Shorter runs stay until so many units are unallocated, and a 64th of all.
const ENOUGH: u64 = 1024;

/// The runs that stay unallocated: those of at least 256 units, and of the others the longest ones, the lower of equal
/// ones first, as long as the runs ahead have less than 1024 units and a 64th of all.
pub fn staying(alloc: Global, runs: &Runs) -> Result<Runs, Memory>
    requires small { units_in runs.now < 2 ^ 60 }
    requires ascending { AllPairs (λ r s. r.first < s.first) runs.now }
    ensures { IfOk result (λ kept. kept ≡ staying runs.now) }
{
    let enough = ENOUGH + units_in(runs) / 64;
    let mut ahead = units_in_longer(runs);
    let mut kept = Runs::new(alloc);
    for i in 0..runs.len() {
        let run = runs.get(i);
        if !next_stays(&mut ahead, run.count, enough) {
            continue;
        }
        kept.add(run)?;
    }
    Ok(kept)
}

/// The units that runs have together.
fn units_in(runs: &Runs) -> u64
    requires { units_in runs.now < 2 ^ 60 }
    ensures { result ≡ units_in runs.now }
{
    let mut units = 0;
    for i in 0..runs.len() {
        units += runs.get(i).count;
    }
    units
}

/// For each number below 256 the units of the runs that have more units.
fn units_in_longer(runs: &Runs) -> [u64; 256]
    requires { units_in runs.now < 2 ^ 60 }
    ensures { (c : ℕ) → c < 256 → slice_index result c ≡ units_in (filter (is_longer c) runs.now) }
{
    let mut longer = [0; 256];
    for i in 0..runs.len() {
        add_below(&mut longer, runs.get(i).count);
    }
    longer
}

/// Adds a run of so many units at each smaller number.
fn add_below(longer: &mut [u64; 256], count: u64)
    requires { (c : ℕ) → c < 256 → slice_index longer.old c + count < 2 ^ 64 }
    ensures { (c : ℕ) → c < 256 → slice_index longer.new c ≡ slice_index longer.old c + (if nat_lt c count then count else 0) }
{
    for c in 0..count.min(LONG) {
        longer[c as usize] += count;
    }
}

/// Whether the next run stays, which has so many units. From then on it is ahead of those that have as many.
fn next_stays(ahead: &mut [u64; 256], count: u64, enough: u64) -> bool
    requires { (c : ℕ) → c < 256 → slice_index ahead.old c + count < 2 ^ 64 }
    ensures stays { result ≡ (nat_le 256 count || nat_lt (slice_index ahead.old count) enough) }
    ensures ahead { (c : ℕ) → c < 256 → slice_index ahead.new c ≡ slice_index ahead.old c + (if count == c then count else 0) }
{
    if LONG <= count {
        return true;
    }
    let before = ahead[count as usize];
    ahead[count as usize] = before + count;
    before < enough
}
