// Directories that stand below themselves.
ghost use Rattle.std.specs.Prelude.{◌≡◌, ◌≢◌, ◌<◌, ◌+◌, ℕ, length, replicate, slice_index, All, IfOk};
ghost use Rattle.std.specs.Option.{MatchOption};
ghost use Rattle.btr_check_names.specs.Rings.{AreEnded, Ends, IsPlace};

use btr_check_rules::btr_reader::btr_reader_walk::Memory;
use std::alloc::Global;

/// A place from which the way up never ends, if there is one, where of each place the one above is given. It takes 8 bytes
/// for each.
pub fn ring(alloc: Global, above: &[Option<usize>]) -> Result<Option<usize>, Memory>
    requires { All (IsPlace (length above.now)) above.now }
    ensures { IfOk result (λ o. MatchOption o ((i : ℕ) → i < length above.now → Ends above.now i) (λ i. (i < length above.now) × (¬ Ends above.now i))) }
{
    let mut met = none_met(alloc, above.len())?;
    for start in 0..above.len() {
        if let Some(i) = walk(above, met.as_mut_slice(), start) {
            return Ok(Some(i));
        }
    }
    Ok(None)
}

/// So many places that were not met.
fn none_met(alloc: Global, count: usize) -> Result<Vec<usize>, Memory>
    ensures { IfOk result (λ met. met.items ≡ replicate count 0) }
{
    let mut met = Vec::new(alloc);
    met.resize(count, 0)?;
    Ok(met)
}

/// Goes up from a place to one that was met on a way before, and keeps the number of this way for each on it. The answer is
/// a place that is met twice, if there is one.
fn walk(above: &[Option<usize>], met: &mut [usize], start: usize) -> Option<usize>
    requires places { All (IsPlace (length above.now)) above.now }
    requires long { length met.old ≡ length above.now }
    requires inside { start < length above.now }
    requires ended { AreEnded above.now met.old start }
    ensures { MatchOption result (AreEnded above.now met.new (start + 1) × (slice_index met.new start ≢ 0) × ((i : ℕ) → slice_index met.old i ≢ 0 → slice_index met.new i ≢ 0)) (λ i. (i < length above.now) × (¬ Ends above.now i)) }
{
    let number = start + 1;
    let mut at = Some(start);
    while let Some(i) = at {
        if met[i] == number {
            return Some(i);
        }
        if met[i] != 0 {
            return None;
        }
        met[i] = number;
        at = above[i];
    }
    None
}
