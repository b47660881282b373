ghost use Rattle.std.specs.Prelude.{◌≡◌};

mod mkfs;

use crate::bytes::{behind, front};
use btr_keys::Key;
use btr_node::{Child, Expect, Full, InnerView, LeafView, NodeWriter};
use csum_kinds::SumKind;
use std::test::Fail;

const CHUNK_TREE: [u8; 16] = [
    0xF6, 0x93, 0xD1, 0x97, 0x05, 0x9A, 0x47, 0x76, 0xAA, 0x56, 0xBD, 0x21, 0x75, 0x9C, 0xEE, 0xFA,
];

// The device tree has the number 4, and a device extent the kind 204.
const LEAF: Expect = Expect {
    address: 5259264,
    fsid: [0x22; 16],
    owner: 4,
    level: 0,
    generation: 5,
    sums: SumKind::Crc32c,
};

const INNER: Expect = Expect {
    address: 5763072,
    fsid: [0x22; 16],
    owner: 5,
    level: 2,
    generation: 7,
    sums: SumKind::Crc32c,
};

fn key(objectid: u64, kind: u8, offset: u64) -> Key
    ensures { result ≡ record { objectid = objectid; kind = kind; offset = offset } }
{
    Key {
        objectid,
        kind,
        offset,
    }
}

/// The offsets of the keys of the leaf's items, and where the bodies begin in the leaf's last bytes.
const ITEMS: [(u64, usize); 3] = [(1048576, 96), (5242880, 48), (13631488, 0)];

/// The body of an item of the leaf.
fn body_at(at: usize) -> &'static [u8] {
    front(behind(&mkfs::LEAF_BACK, at), 48)
}

/// Key and body of item `i`, if there are so many.
fn item<'a>(leaf: &LeafView<'a>, i: usize) -> Option<(Key, &'a [u8])> {
    if i < leaf.count() {
        Some((leaf.key(i), leaf.body(i)))
    } else {
        None
    }
}

#[test]
fn leaf_of_mkfs(rt: HostRuntime) {
    let bytes = mkfs::leaf();
    let leaf = LeafView::read(&bytes, &LEAF).expect(&rt, "a leaf");
    assert_eq!(rt; leaf.count(), 3);
    for (i, (offset, at)) in ITEMS.iter().enumerate() {
        assert!(rt; item(&leaf, i) == Some((key(1, 204, *offset), body_at(*at))));
    }
}

/// The inner node's children: object, kind and offset of their first keys, and their addresses.
const CHILDREN: [(u64, u8, u64, u64); 4] = [
    (256, 1, 0, 5267456),
    (256, 96, 1254, 6230016),
    (10971224, 1, 0, 6279168),
    (10972021, 12, 256, 5767168),
];

fn child(key: Key, address: u64) -> Child
    ensures { result ≡ record { key = key; address = address; generation = 7 } }
{
    Child {
        key,
        address,
        generation: 7,
    }
}

/// Child `i`, if there are so many.
fn child_of(node: &InnerView<'_>, i: usize) -> Option<Child> {
    if i < node.count() {
        Some(node.child(i))
    } else {
        None
    }
}

#[test]
fn inner_node_of_mkfs(rt: HostRuntime) {
    let bytes = mkfs::inner();
    let node = InnerView::read(&bytes, &INNER).expect(&rt, "an inner node");
    assert_eq!(rt; node.count(), 4);
    for (i, (objectid, kind, offset, address)) in CHILDREN.iter().enumerate() {
        let wanted = child(key(*objectid, *kind, *offset), *address);
        assert!(rt; child_of(&node, i) == Some(wanted));
    }
}

/// Writes the leaf, and gives the room that is left, and its bytes.
fn written_leaf(writer: &mut NodeWriter) -> Result<(usize, &[u8]), Full> {
    writer.start(&LEAF, CHUNK_TREE);
    writer.push(key(1, 204, 1048576), body_at(96))?;
    writer.push(key(1, 204, 5242880), body_at(48))?;
    writer.push(key(1, 204, 13631488), body_at(0))?;
    let room = writer.room();
    Ok((room, writer.finish()))
}

// The writer makes the bytes that mkfs.btrfs made.
#[test]
fn writes_the_leaf_of_mkfs(rt: HostRuntime) -> Result<(), Fail> {
    let mut writer = NodeWriter::new(rt.alloc(), 4096)?;
    let (room, bytes) = written_leaf(&mut writer)?;
    assert_eq!(rt; room, 3776);
    assert!(rt; bytes == mkfs::leaf().as_slice());
    Ok(())
}

/// Writes the inner node, and gives the room that is left for more children, and its bytes.
fn written_inner(writer: &mut NodeWriter) -> Result<(usize, &[u8]), Full> {
    writer.start(&INNER, CHUNK_TREE);
    writer.push_child(child(key(256, 1, 0), 5267456))?;
    writer.push_child(child(key(256, 96, 1254), 6230016))?;
    writer.push_child(child(key(10971224, 1, 0), 6279168))?;
    writer.push_child(child(key(10972021, 12, 256), 5767168))?;
    let room = writer.room() / 33;
    Ok((room, writer.finish()))
}

#[test]
fn writes_the_inner_node_of_mkfs(rt: HostRuntime) -> Result<(), Fail> {
    let mut writer = NodeWriter::new(rt.alloc(), 4096)?;
    let (room, bytes) = written_inner(&mut writer)?;
    assert_eq!(rt; room, 117);
    assert!(rt; bytes == mkfs::inner().as_slice());
    Ok(())
}
