ghost use Rattle.std.specs.Prelude.{◌≡◌, ◌≤◌};
ghost use Rattle.btr_tree.specs.csum_kinds.Kind.{kind_width};
ghost use Rattle.unit_plan.specs.Sums.{sums_in_item};

use btr_tree::SumKind;

/// How many checksums of data an item of the checksum tree has at most.
pub fn sums_in_item(kind: SumKind) -> u64
    ensures exact { result ≡ sums_in_item kind }
    ensures some { 1 ≤ result }
{
    match kind {
        SumKind::Crc32c => 900,
        SumKind::Sha256 => 100,
    }
}

/// How many bytes a checksum of data has.
pub(crate) fn sum_width(kind: SumKind) -> u64
    ensures exact { result ≡ kind_width kind }
    ensures small { result ≤ 32 }
{
    btr_tree::kind_width(kind) as u64
}
