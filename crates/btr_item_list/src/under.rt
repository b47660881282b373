ghost use Rattle.std.specs.Prelude.{◌≡◌, ◌≤◌, ◌<◌, ◌^◌, true, false, length, filter, count_by, nat_lt, slice_range, AllPairs};
ghost use Rattle.std.specs.List.Sorted.{IsPartitionPoint};
ghost use Rattle.std.specs.Ordering.{is_lt, is_le, nat_cmp};
ghost use Rattle.btr_item_list.specs.Spots.{is_under, AscendByObject};

use crate::spot::Spot;

/// How many of these things, whose numbers ascend, come before one.
pub fn count_before(spots: &[Spot], number: usize) -> usize
    ensures count { AllPairs (λ a b. a.number < b.number) spots.now → result ≡ count_by (λ spot. nat_lt spot.number number) spots.now }
    ensures small { result < 2 ^ 63 }
{
    spots.partition_point(|spot| spot.number < number)
}

/// What stands under one number, out of things that ascend by these.
pub fn under(spots: &[Spot], of: u64) -> &[Spot]
    requires { AscendByObject spots.now }
    ensures { result.now ≡ filter (is_under of) spots.now }
{
    let (first, end) = bounds_of(spots, of);
    &spots[first..end]
}

/// Where it begins and ends.
fn bounds_of(spots: &[Spot], of: u64) -> (usize, usize)
    requires { AscendByObject spots.now }
    ensures ordered { result.0 ≤ result.1 }
    ensures within { result.1 ≤ length spots.now }
    ensures between { slice_range spots.now result.0 result.1 ≡ filter (is_under of) spots.now }
{
    (first_of(spots, of), end_of(spots, of))
}

/// The place of the first one under a number, or where it would stand.
fn first_of(spots: &[Spot], of: u64) -> usize
    requires { AscendByObject spots.now }
    ensures within { result ≤ length spots.now }
    ensures parts { IsPartitionPoint (λ spot. is_lt (nat_cmp spot.of of) ≡ true) (λ spot. is_lt (nat_cmp spot.of of) ≡ false) spots.now result }
{
    spots.partition_point(|spot| spot.of < of)
}

/// The place behind the last one under a number.
fn end_of(spots: &[Spot], of: u64) -> usize
    requires { AscendByObject spots.now }
    ensures within { result ≤ length spots.now }
    ensures parts { IsPartitionPoint (λ spot. is_le (nat_cmp spot.of of) ≡ true) (λ spot. is_le (nat_cmp spot.of of) ≡ false) spots.now result }
{
    spots.partition_point(|spot| spot.of <= of)
}
