ghost use Rattle.std.specs.Prelude.{◌≡◌};
ghost use Rattle.reiser_items.specs.Order.{kind_number, key_order};

use reiser_node::{ItemHead, ItemKind};
use std::cmp::Ordering;

/// Compares the keys of two items: by their directories' numbers, then their objects', then their offsets, and then
/// their kinds, which count from stat data over indirect and direct items to directories, in both versions.
///
/// The items of a ReiserFS tree ascend in this order.
pub fn key_order(a: &ItemHead, b: &ItemHead) -> Ordering
    ensures { result ≡ key_order a.now b.now }
{
    a.dir
        .cmp(&b.dir)
        .then(a.object.cmp(&b.object))
        .then(a.offset.cmp(&b.offset))
        .then(kind_number(a.kind).cmp(&kind_number(b.kind)))
}

/// The place of a kind in the order of keys.
fn kind_number(kind: ItemKind) -> u8
    ensures { result ≡ kind_number kind }
{
    match kind {
        ItemKind::Stat => 0,
        ItemKind::Indirect => 1,
        ItemKind::Direct => 2,
        ItemKind::Directory => 3,
    }
}
