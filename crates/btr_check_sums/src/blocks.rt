// The blocks of ranges of addresses.
ghost use Rattle.std.specs.Prelude.{◌≡◌, ◌<◌, ◌^◌, ℕ};
ghost use Rattle.btr_check_sums.specs.Blocks.{has_block};
ghost use Rattle.number_runs.specs.Runs.{is_in};

use number_runs::Run;

/// How many blocks have addresses of 64 bits.
const ADDRESSED: u128 = 1 << 52;

/// The numbers of the blocks whose addresses lie in a range, in bytes, as far as an address has 64 bits.
pub fn blocks_in(start: u128, length: u64) -> Run
    requires { start < 2 ^ 66 }
    ensures { (n : ℕ) → is_in result n ≡ has_block (record { start = start; length = length }) n }
{
    let first = (start + 4095) / 4096;
    let end = ((start + length as u128 + 4095) / 4096).min(ADDRESSED);
    if first < end {
        Run {
            first: first as u64,
            last: (end - 1) as u64,
        }
    } else {
        Run { first: 1, last: 0 }
    }
}
