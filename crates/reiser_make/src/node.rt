ghost use Rattle.std.specs.Prelude.{◌≡◌, ◌≤◌, ◌<◌, ◌^◌, length, replicate, true, false};
ghost use Rattle.reiser_items.specs.Order.{kind_number};
ghost use Rattle.reiser_make.specs.Leaf.{key_bytes, head_bytes, node_head, old_code, place_bytes, version};

use reiser_items::reiserfs_format::key::{
    V1_DIRECT_UNIQUENESS, V1_DIRENTRY_UNIQUENESS, V1_INDIRECT_UNIQUENESS,
};
use reiser_items::{Field, ItemHead, ItemKind, put_fields};

/// Writes zeros over bytes.
pub fn clear(bytes: &mut [u8])
    ensures { bytes.new ≡ replicate (length bytes.old) 0 }
{
    bytes.fill(0);
}

/// Writes the head of a node: its level, its count and the room that is left.
pub fn put_node_head(level: u16, count: u16, room: u16, into: &mut [u8])
    requires { length into.old ≡ 24 }
    ensures { into.new ≡ node_head level count room }
{
    put_fields(
        into,
        &[
            Field::U16(level),
            Field::U16(count),
            Field::U16(room),
            Field::Zeros(18),
        ],
    );
}

/// Writes the head of an item whose body begins at this byte.
pub fn put_head(head: &ItemHead, location: u16, into: &mut [u8])
    requires room { length into.old ≡ 24 }
    requires offset { head.now.offset < 2 ^ 32 }
    ensures { into.new ≡ head_bytes head.now location }
{
    let key = key_bytes(head);
    put_fields(
        into,
        &[
            Field::Bytes(&key),
            Field::U16(head.count),
            Field::U16(head.length),
            Field::U16(location),
            Field::U16(version(head.old)),
        ],
    );
}

/// The 16 bytes of an item's key.
pub fn key_bytes(head: &ItemHead) -> [u8; 16]
    requires { head.now.offset < 2 ^ 32 }
    ensures key { result ≡ key_bytes head.now }
{
    let mut bytes = [0; 16];
    if head.old {
        put_old_key(head, &mut bytes);
    } else {
        put_new_key(head, &mut bytes);
    }
    bytes
}

fn put_old_key(head: &ItemHead, into: &mut [u8])
    requires room { length into.old ≡ 16 }
    requires offset { head.now.offset < 2 ^ 32 }
    requires old { head.now.old ≡ true }
    ensures { into.new ≡ key_bytes head.now }
{
    put_fields(
        into,
        &[
            Field::U32(head.dir),
            Field::U32(head.object),
            Field::U32(head.offset as u32),
            Field::U32(old_code(head.kind)),
        ],
    );
}

fn put_new_key(head: &ItemHead, into: &mut [u8])
    requires room { length into.old ≡ 16 }
    requires offset { head.now.offset < 2 ^ 32 }
    requires new { head.now.old ≡ false }
    ensures { into.new ≡ key_bytes head.now }
{
    put_fields(
        into,
        &[
            Field::U32(head.dir),
            Field::U32(head.object),
            Field::U64(head.offset + kind_number(head.kind) * (1 << 60)),
        ],
    );
}

/// The version of an item.
fn version(old: bool) -> u16
    ensures { result ≡ version old }
{
    if old { 0 } else { 1 }
}

/// The number of a kind in keys of version 0.
fn old_code(kind: ItemKind) -> u32
    ensures { result ≡ old_code kind }
{
    match kind {
        ItemKind::Stat => 0,
        ItemKind::Indirect => V1_INDIRECT_UNIQUENESS,
        ItemKind::Direct => V1_DIRECT_UNIQUENESS,
        ItemKind::Directory => V1_DIRENTRY_UNIQUENESS,
    }
}

/// The number of a kind in keys of version 1.
fn kind_number(kind: ItemKind) -> u64
    ensures number { result ≡ kind_number kind }
    ensures most { result ≤ 3 }
{
    match kind {
        ItemKind::Stat => 0,
        ItemKind::Indirect => 1,
        ItemKind::Direct => 2,
        ItemKind::Directory => 3,
    }
}
