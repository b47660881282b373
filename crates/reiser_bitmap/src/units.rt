ghost use Rattle.std.specs.Prelude.{◌≡◌, ◌↔◌, ◌+◌, ◌-◌, ◌*◌, ◌≤◌, nat_lt, ◌++◌, ◌∷◌, [], length, IsTrue, OnOk, IfOk, if◌then◌else◌};
ghost use Rattle.reiser_bitmap.specs.Units.{IsFreeUnit, is_free_unit, free_units};
ghost use Rattle.reiser_bitmap.specs.Zeros.{AreZeros, HasNoBits};
ghost use Rattle.reiser_bitmap.specs.Runs.{free_runs};

use crate::{Bitmap, Run, Runs};
use refusals::{Memory, is_reserved, u64_at};
use std::simd::u8x32;

/// How many blocks a unit of 1 MiB has.
const BLOCKS_IN_UNIT: u64 = 256;

impl Bitmap {
    /// Whether all blocks of unit `u`, which are blocks 256·u to 256·u + 255, lie in the volume, and each is unused and
    /// not reserved. A unit past the end is not free.
    pub fn unit_is_free(&self, u: u64) -> bool
        ensures fact { IsTrue result ↔ IsFreeUnit self.now u }
        ensures test { result ≡ is_free_unit self.now u }
    {
        if u >= self.blocks / BLOCKS_IN_UNIT {
            return false;
        }
        // Each reserved range that a whole unit meets begins with the unit.
        if is_reserved(BLOCKS_IN_UNIT * u, self.blocks) {
            return false;
        }
        has_no_bits(&self.bytes, 32 * u as usize)
    }

    /// How many units are free.
    pub fn free_units(&self) -> u64
        ensures { result ≡ length (free_units self.now) }
    {
        let mut count = 0;
        for u in 0..self.len() / BLOCKS_IN_UNIT {
            if self.unit_is_free(u) {
                count += 1;
            }
        }
        count
    }

    /// The maximal runs of free units, ascending.
    pub fn free_runs(&self) -> Result<Runs, Memory>
        ensures { IfOk result (λ runs. runs ≡ free_runs self.now) }
    {
        let mut runs = Runs::new(*self.bytes.allocator());
        let mut first = 0;
        for u in 0..self.len() / BLOCKS_IN_UNIT + 1 {
            if self.unit_is_free(u) {
                continue;
            }
            add_units(&mut runs, first, u)?;
            first = u + 1;
        }
        Ok(runs)
    }
}

/// Appends the units from `first` to before `end` as a run, if there are any.
fn add_units(runs: &mut Runs, first: u64, end: u64) -> Result<(), Memory>
    requires { first ≤ end }
    ensures { OnOk result (runs.new ≡ (if nat_lt first end then runs.old ++ record { first = first; count = end - first } ∷ [] else runs.old)) }
{
    if first < end {
        runs.add(Run {
            first,
            count: end - first,
        })?;
    }
    Ok(())
}

/// Whether the 32 bytes from byte `at` on, those of a unit, have no bit: all of them are looked at as one word of 32
/// lanes.
fn has_no_bits(bytes: &[u8], at: usize) -> bool
    requires { at + 32 ≤ length bytes.now }
    ensures { IsTrue result ↔ HasNoBits bytes.now (8 * at) 256 }
{
    let unit = u8x32::from_slice(&bytes[at..at + 32]);
    unit.reduce_or() == 0
}

/// Whether the eight bytes from byte `at` on are zeros.
pub(crate) fn is_zero(bytes: &[u8], at: usize) -> bool
    requires { at + 8 ≤ length bytes.now }
    ensures { IsTrue result ↔ AreZeros bytes.now at 8 }
{
    u64_at(bytes, at) == 0
}
