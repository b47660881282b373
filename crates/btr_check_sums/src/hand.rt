// The place of an address, by the addresses in which the last one was found.
ghost use Rattle.std.specs.Prelude.{◌≡◌, ◌<◌, ◌^◌, IfSome};
ghost use Rattle.btr_check_rules.specs.btr_reader.btr_reader_walk.Map.{place};
ghost use Rattle.btr_check_sums.specs.PlaceRuns.{TellsPlaces, hand_place};

use crate::place_run::PlaceRun;
use crate::places::run_from;
use btr_check_rules::btr_reader::btr_reader_walk::MapRange;

/// The place of an address where it is one of these.
fn held(hand: &Option<PlaceRun>, address: u128) -> Option<u128>
    ensures place { result ≡ hand_place hand.now address }
    ensures small { IfSome result (λ p. p < 2 ^ 67) }
{
    match hand {
        Some(run) => {
            if run.has(address) {
                Some(run.place_of(address))
            } else {
                None
            }
        }
        None => None,
    }
}

/// The place of an address on the device, in bytes; None where it lies in no range. What was found is kept in hand.
pub fn find_place(hand: &mut Option<PlaceRun>, ranges: &[MapRange], address: u128) -> Option<u128>
    requires small { address < 2 ^ 66 }
    requires hand { IfSome hand.old (TellsPlaces ranges.now) }
    ensures place { result ≡ place ranges.now address }
    ensures small { IfSome result (λ p. p < 2 ^ 67) }
    ensures hand { IfSome hand.new (TellsPlaces ranges.now) }
{
    if let Some(place) = held(hand, address) {
        return Some(place);
    }
    *hand = run_from(ranges, address);
    held(hand, address)
}
