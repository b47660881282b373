ghost use Rattle.std.specs.Prelude.{◌≡◌, ◌≤◌, length};
ghost use Rattle.btr_node.specs.Sum.{has_sum};

use btr_keys::btrfs_format::size::{CSUM_SIZE, HEADER_SIZE};
use csum_kinds::{SumKind, kind_sum};

/// Whether the first 32 bytes of a node are the checksum of the bytes behind them.
pub fn has_sum(sums: SumKind, bytes: &[u8]) -> bool
    requires { HEADER_SIZE ≤ length bytes.now }
    ensures { result ≡ has_sum sums bytes.now }
{
    &bytes[..CSUM_SIZE] == kind_sum(sums, &bytes[CSUM_SIZE..]).as_slice()
}
