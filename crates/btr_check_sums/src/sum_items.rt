// Items of the checksum tree.
ghost use Rattle.std.specs.Prelude.{◌≡◌};
ghost use Rattle.btr_check_rules.specs.Sums.{most_sums, sum_count};
ghost use Rattle.btr_check_rules.specs.btr_reader.btr_keys.declared.key.Key.{Key as KeyOf};
ghost use Rattle.btr_check_sums.specs.SumItems.{fits_count, has_whole_sums, is_sum_item, is_sum_key};

use btr_check_rules::btr_reader::btr_reader_walk::{Key, SumKind};
use btr_check_rules::btr_reader::btrfs_format::key::EXTENT_CSUM;
use btr_check_rules::btr_reader::btrfs_format::object::EXTENT_CSUM_OBJECTID;
use btr_check_rules::btr_reader::btrfs_format::size::{HEADER_SIZE, ITEM_SIZE};
use csum_kinds::kind_width;

/// How many whole checksums a body has.
pub fn sum_count(kind: SumKind, body: &[u8]) -> usize
    ensures { (key : KeyOf) → result ≡ sum_count kind (key, body.now) }
{
    body.len() / kind_width(kind)
}

/// The most checksums that Linux puts into one item.
fn most_sums(nodesize: u32, kind: SumKind) -> usize
    ensures { result ≡ most_sums nodesize kind }
{
    let room = (nodesize as usize).saturating_sub(HEADER_SIZE + 2 * ITEM_SIZE);
    (room / kind_width(kind)).saturating_sub(1)
}

/// Whether the key of an item is that of checksums of whole blocks.
fn is_sum_key(key: &Key) -> bool
    ensures { result ≡ is_sum_key key.now }
{
    key.objectid == EXTENT_CSUM_OBJECTID && key.kind == EXTENT_CSUM && key.offset % 4096 == 0
}

/// Whether an item may have so many checksums.
fn fits_count(nodesize: u32, kind: SumKind, count: usize) -> bool
    ensures { result ≡ fits_count nodesize kind count }
{
    1 <= count && count <= most_sums(nodesize, kind)
}

/// Whether a body is whole checksums, at least one and not too many.
fn has_whole_sums(nodesize: u32, kind: SumKind, body: &[u8]) -> bool
    ensures { result ≡ has_whole_sums nodesize kind body.now }
{
    let width = kind_width(kind);
    body.len() % width == 0 && fits_count(nodesize, kind, body.len() / width)
}

/// Whether an item has the form of checksums of blocks.
pub fn is_sum_item(nodesize: u32, kind: SumKind, key: &Key, body: &[u8]) -> bool
    ensures { result ≡ is_sum_item nodesize kind (key.now, body.now) }
{
    is_sum_key(key) && has_whole_sums(nodesize, kind, body)
}
