ghost use Rattle.std.specs.Prelude.{◌≡◌, [], Some, None, ◌&&◌, nat_lt, if◌then◌else◌};
ghost use Rattle.reiser_volume_files.specs.Bytes.{byte_count};
ghost use Rattle.reiser_volume_objects.specs.Items.{stat_by_kind};
ghost use Rattle.reiser_volume_objects.specs.Summary.{Summarises, with_item, has_pointers, has_bytes, has_entries, has_entry_form};

use crate::ObjectStat;
use reiser_items::{BlockNo, Entries, ItemHead, ItemKind, StatData};

/// What is kept of the items of one object.
#[derive(Clone, Copy, Debug, PartialEq, Eq)]
pub struct Object {
    /// Its stat data; None where it has no stat item.
    pub stat: Option<ObjectStat>,
    /// Whether it has pointers to blocks.
    pub pointers: bool,
    /// Whether it has bytes in items.
    pub bytes: bool,
    /// Whether it has directory entries.
    pub entries: bool,
    /// No byte at or past this one is held by an item.
    pub covered: u128,
    /// The leaf of the first item that holds a byte which one before it holds.
    pub overlap: Option<BlockNo>,
    /// The leaf of its first directory item that is off the grammar of entries.
    pub off_form: Option<BlockNo>,
    /// The number of the leaf of its first item in the list of leaves.
    pub first: usize,
}

impl Object {
    /// An object without items, whose first item is to stand in the leaf of this number.
    pub fn new(first: usize) -> Object
        ensures none { Summarises result [] }
        ensures first { result.first ≡ first }
    {
        Object {
            stat: None,
            pointers: false,
            bytes: false,
            entries: false,
            covered: 0,
            overlap: None,
            off_form: None,
            first,
        }
    }

    /// The same object with one more item, which stands in a leaf.
    pub fn with(&self, leaf: BlockNo, head: &ItemHead, body: &[u8]) -> Object
        ensures { result ≡ with_item self.now (record { leaf = leaf; head = head.now; body = body.now }) }
    {
        let first = head.offset.saturating_sub(1) as u128;
        let count = byte_count(head.kind, body);
        let end = first + count;
        Object {
            stat: self.stat.or(stat_in(leaf, head, body)),
            pointers: self.pointers || has_pointers(head.kind),
            bytes: self.bytes || has_bytes(head.kind),
            entries: self.entries || has_entries(head.kind),
            covered: if end > self.covered {
                end
            } else {
                self.covered
            },
            overlap: self
                .overlap
                .or(overlap_at(self.covered, first, count, leaf)),
            off_form: self.off_form.or(off_form_at(leaf, head, body)),
            first: self.first,
        }
    }
}

/// The leaf, where an item in it holds a byte below `covered`.
fn overlap_at(covered: u128, first: u128, count: u128, leaf: BlockNo) -> Option<BlockNo>
    ensures { result ≡ (if nat_lt 0 count && nat_lt first covered then Some leaf else None) }
{
    if count > 0 && first < covered {
        Some(leaf)
    } else {
        None
    }
}

/// The leaf, where an item in it is a directory item that is off the grammar of entries.
fn off_form_at(leaf: BlockNo, head: &ItemHead, body: &[u8]) -> Option<BlockNo>
    ensures { result ≡ (if has_entry_form (record { leaf = leaf; head = head.now; body = body.now }) then None else Some leaf) }
{
    if !has_entries(head.kind) || Entries::read(body, head.count).is_some() {
        None
    } else {
        Some(leaf)
    }
}

/// The stat data in an item, if it is a stat item.
fn stat_in(leaf: BlockNo, head: &ItemHead, body: &[u8]) -> Option<ObjectStat>
    ensures { result ≡ stat_by_kind head.now.kind (record { leaf = leaf; head = head.now; body = body.now }) }
{
    match head.kind {
        ItemKind::Stat => match StatData::read(head.old, body) {
            Some(fields) => Some(ObjectStat {
                leaf,
                old_form: head.old,
                fields,
            }),
            None => None,
        },
        ItemKind::Indirect | ItemKind::Direct | ItemKind::Directory => None,
    }
}

/// How many bytes of a file an item holds or names blocks for.
fn byte_count(kind: ItemKind, body: &[u8]) -> u128
    ensures { result ≡ byte_count kind body.now }
{
    match kind {
        ItemKind::Indirect => 4096 * (body.len() as u128 / 4),
        ItemKind::Direct => body.len() as u128,
        ItemKind::Stat | ItemKind::Directory => 0,
    }
}

fn has_pointers(kind: ItemKind) -> bool
    ensures { result ≡ has_pointers kind }
{
    matches!(kind, ItemKind::Indirect)
}

fn has_bytes(kind: ItemKind) -> bool
    ensures { result ≡ has_bytes kind }
{
    matches!(kind, ItemKind::Direct)
}

fn has_entries(kind: ItemKind) -> bool
    ensures { result ≡ has_entries kind }
{
    matches!(kind, ItemKind::Directory)
}
