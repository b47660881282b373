ghost use Rattle.std.specs.Prelude.{◌≡◌, ◌≤◌, ◌<◌, ◌+◌, ◌*◌, length, drop};
ghost use Rattle.std.specs.List.{list_all};
ghost use Rattle.btr_node.specs.Areas.{is_within, are_apart, all_apart, has_areas, descends};
ghost use Rattle.btr_node.specs.Leaf.{item_layout};
ghost use Rattle.btr_node.specs.Records.{records_in};

use crate::item::BtrItemHead;
use btr_keys::btrfs_format::size::ITEM_SIZE;

/// Whether the data of `count` items lies behind their heads and in the node, and no two share a byte.
///
/// `entries` is what stands behind the node's head. What Linux writes is found in one pass; only where the data lies in
/// another order each pair of items is looked at.
pub fn has_areas(entries: &[u8], count: usize) -> bool
    requires { ITEM_SIZE * count ≤ length entries.now }
    ensures { result ≡ has_areas (ITEM_SIZE * count) (length entries.now) (records_in ITEM_SIZE item_layout count entries.now) }
{
    descends(entries, count) || (all_within(entries, count) && all_apart(entries, count))
}

/// Whether each item's data ends at or below the beginning of the one before.
fn descends(entries: &[u8], count: usize) -> bool
    requires { ITEM_SIZE * count ≤ length entries.now }
    ensures { result ≡ descends (ITEM_SIZE * count) (length entries.now) (records_in ITEM_SIZE item_layout count entries.now) }
{
    let mut end = entries.len();
    for i in 0..count {
        let head = BtrItemHead::at(entries, BtrItemHead::SIZE * i);
        if !is_within(&head, BtrItemHead::SIZE * count, end) {
            return false;
        }
        end = head.offset as usize;
    }
    true
}

/// Whether each item's data lies behind the heads and in the node.
fn all_within(entries: &[u8], count: usize) -> bool
    requires { ITEM_SIZE * count ≤ length entries.now }
    ensures { result ≡ list_all (is_within (ITEM_SIZE * count) (length entries.now)) (records_in ITEM_SIZE item_layout count entries.now) }
{
    for i in 0..count {
        let head = BtrItemHead::at(entries, BtrItemHead::SIZE * i);
        if !is_within(&head, BtrItemHead::SIZE * count, entries.len()) {
            return false;
        }
    }
    true
}

/// Whether an item's data begins at `low` or above and ends at `high` or below.
fn is_within(head: &BtrItemHead, low: usize, high: usize) -> bool
    ensures { result ≡ is_within low high head.now }
{
    let begin = head.offset as usize;
    low <= begin && begin + head.size as usize <= high
}

/// Whether no two items share a byte.
fn all_apart(entries: &[u8], count: usize) -> bool
    requires { ITEM_SIZE * count ≤ length entries.now }
    ensures { result ≡ all_apart (records_in ITEM_SIZE item_layout count entries.now) }
{
    for i in 0..count {
        if !apart_from_later(entries, count, i) {
            return false;
        }
    }
    true
}

/// Whether item i shares no byte with a later one.
fn apart_from_later(entries: &[u8], count: usize, i: usize) -> bool
    requires there { ITEM_SIZE * count ≤ length entries.now }
    requires within { i < count }
    ensures { result ≡ list_all (are_apart (item_layout.read (drop (ITEM_SIZE * i) entries.now)))
        (drop (i + 1) (records_in ITEM_SIZE item_layout count entries.now)) }
{
    let head = BtrItemHead::at(entries, BtrItemHead::SIZE * i);
    for j in i + 1..count {
        let later = BtrItemHead::at(entries, BtrItemHead::SIZE * j);
        if !are_apart(&head, &later) {
            return false;
        }
    }
    true
}

/// Whether two items share no byte.
fn are_apart(a: &BtrItemHead, b: &BtrItemHead) -> bool
    ensures { result ≡ are_apart a.now b.now }
{
    a.size == 0
        || b.size == 0
        || a.offset as u64 + a.size as u64 <= b.offset as u64
        || b.offset as u64 + b.size as u64 <= a.offset as u64
}
