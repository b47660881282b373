// Where addresses lie, many at a time.
ghost use Rattle.std.specs.Prelude.{◌≡◌, ◌≤◌, ◌<◌, ◌^◌, ◌+◌, ◌-◌, ℕ, true, false, None};
ghost use Rattle.std.specs.Option.{MatchOption};
ghost use Rattle.btr_check_rules.specs.btr_reader.btr_reader_walk.Map.{holds, place};
ghost use Rattle.btr_check_sums.specs.PlaceRuns.{TellsPlaces, is_in_run};

use crate::place_run::PlaceRun;
use btr_check_rules::btr_reader::btr_reader_walk::MapRange;

impl PlaceRun {
    /// Whether an address is one of these.
    pub fn has(&self, address: u128) -> bool
        ensures { result ≡ is_in_run self.now address }
    {
        self.first <= address && address < self.end
    }

    /// Where one of these addresses lies on the device.
    pub fn place_of(&self, address: u128) -> u128
        requires { is_in_run self.now address ≡ true }
        ensures { result ≡ self.now.place + (address - self.now.first) }
    {
        self.place + (address - self.first)
    }
}

/// Whether a range holds an address.
fn holds(range: &MapRange, address: u128) -> bool
    ensures { result ≡ holds range.now address }
{
    let first = range.logical as u128;
    first <= address && address < first + range.length as u128
}

/// Up to where, at most to an end, a range holds none of the addresses from this one on.
fn cut(range: &MapRange, address: u128, end: u128) -> u128
    requires { holds range.now address ≡ false }
    ensures most { result ≤ end }
    ensures above { address < end → address < result }
    ensures free { (a : ℕ) → address ≤ a → a < result → holds range.now a ≡ false }
{
    let first = range.logical as u128;
    if address < first { end.min(first) } else { end }
}

/// The places of the addresses of a range from this one on, up to an end.
fn run_of(range: &MapRange, address: u128, end: u128) -> PlaceRun
    requires held { holds range.now address ≡ true }
    requires above { address < end }
    ensures first { result.first ≡ address }
    ensures above { address < result.end }
    ensures most { result.end ≤ end }
    ensures held { (a : ℕ) → address ≤ a → a < result.end → holds range.now a ≡ true }
    ensures place { result.place ≡ range.now.physical + (address - range.now.logical) }
{
    let first = range.logical as u128;
    PlaceRun {
        first: address,
        end: end.min(first + range.length as u128),
        place: range.physical as u128 + (address - first),
    }
}

/// The place of an address, and of those behind it that follow each other on the device; None where it lies in no range.
pub fn run_from(ranges: &[MapRange], address: u128) -> Option<PlaceRun>
    requires { address < 2 ^ 66 }
    ensures { MatchOption result (place ranges.now address ≡ None) (λ run. (is_in_run run address ≡ true) × TellsPlaces ranges.now run) }
{
    let mut end = u128::MAX;
    for range in ranges {
        if holds(range, address) {
            return Some(run_of(range, address, end));
        }
        end = cut(range, address, end);
    }
    None
}
