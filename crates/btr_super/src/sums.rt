ghost use Rattle.std.specs.Prelude.{◌≡◌, ◌≤◌, drop, length, Some};
ghost use Rattle.btr_super.specs.Sums.{known_kind, csum_number, has_sum, behind_sum, sealed};

use btr_space_items::btrfs_format::feature::{CSUM_TYPE_CRC32, CSUM_TYPE_SHA256};
use btr_space_items::btrfs_format::size::CSUM_SIZE;
use csum_kinds::{SumKind, kind_sum};
use refusals::{Block, u16_at};

/// The kind of checksum that the superblock's field `csum_type` names; None exactly where it is not known.
pub fn sum_kind(csum_type: u16) -> Option<SumKind>
    ensures { result ≡ known_kind csum_type }
{
    match csum_type {
        CSUM_TYPE_CRC32 => Some(SumKind::Crc32c),
        CSUM_TYPE_SHA256 => Some(SumKind::Sha256),
        _ => None,
    }
}

/// What the superblock's field `csum_type` is for a kind of checksum.
pub fn csum_type(kind: SumKind) -> u16
    ensures { result ≡ csum_number kind }
{
    match kind {
        SumKind::Crc32c => CSUM_TYPE_CRC32,
        SumKind::Sha256 => CSUM_TYPE_SHA256,
    }
}

/// Whether a block begins with its checksum.
pub(crate) fn has_sum(kind: SumKind, block: &[u8]) -> bool
    requires { CSUM_SIZE ≤ length block.now }
    ensures { result ≡ has_sum (Some kind) block.now }
{
    let sum = kind_sum(kind, &block[CSUM_SIZE..]);
    block.starts_with(&sum)
}

/// Writes the checksum that a block's own type asks for; where the type is not known, the block stays.
pub(crate) fn seal(block: &mut Block)
    ensures { block.new.bytes ≡ sealed block.old.bytes }
{
    match sum_kind(u16_at(&block.bytes, 196)) {
        Some(kind) => put_sum(kind, &mut block.bytes),
        None => {}
    }
}

fn put_sum(kind: SumKind, block: &mut [u8])
    requires { CSUM_SIZE ≤ length block.old }
    ensures { block.new ≡ behind_sum kind (drop CSUM_SIZE block.old) }
{
    let sum = kind_sum(kind, &block[CSUM_SIZE..]);
    block[..CSUM_SIZE].copy_from_slice(&sum);
}
