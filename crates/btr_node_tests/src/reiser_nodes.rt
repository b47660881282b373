// Bytes of volumes that mkfs.reiserfs and Linux 6.1 made, beside the values that `debugreiserfs` prints of them.
use crate::bytes::{behind, front};
use reiser_node::{InnerView, ItemHead, ItemKind, LeafView};
use vol_block::Block;

/// The heads of the one leaf of a fresh volume.
const HEADS: [u8; 72] = [
    0x01, 0x00, 0x02, 0x00, 0x5c, 0x0f, 0x00, 0x00, 0x00, 0x00, 0x00, 0x00, 0x00, 0x00, 0x00, 0x00,
    0x00, 0x00, 0x00, 0x00, 0x00, 0x00, 0x00, 0x00, 0x01, 0x00, 0x00, 0x00, 0x02, 0x00, 0x00, 0x00,
    0x00, 0x00, 0x00, 0x00, 0x00, 0x00, 0x00, 0x00, 0x00, 0x00, 0x2c, 0x00, 0xd4, 0x0f, 0x01, 0x00,
    0x01, 0x00, 0x00, 0x00, 0x02, 0x00, 0x00, 0x00, 0x01, 0x00, 0x00, 0x00, 0xf4, 0x01, 0x00, 0x00,
    0x02, 0x00, 0x30, 0x00, 0xa4, 0x0f, 0x00, 0x00,
];

/// The bodies at its end.
const BODIES: [u8; 92] = [
    0x01, 0x00, 0x00, 0x00, 0x01, 0x00, 0x00, 0x00, 0x02, 0x00, 0x00, 0x00, 0x28, 0x00, 0x04, 0x00,
    0x02, 0x00, 0x00, 0x00, 0x00, 0x00, 0x00, 0x00, 0x01, 0x00, 0x00, 0x00, 0x20, 0x00, 0x04, 0x00,
    0x2e, 0x2e, 0x00, 0x00, 0x00, 0x00, 0x00, 0x00, 0x2e, 0x00, 0x00, 0x00, 0x00, 0x00, 0x00, 0x00,
    0xed, 0x41, 0x00, 0x00, 0x03, 0x00, 0x00, 0x00, 0x30, 0x00, 0x00, 0x00, 0x00, 0x00, 0x00, 0x00,
    0x00, 0x00, 0x00, 0x00, 0x00, 0x00, 0x00, 0x00, 0xe0, 0xf3, 0x08, 0x6b, 0xe0, 0xf3, 0x08, 0x6b,
    0xe0, 0xf3, 0x08, 0x6b, 0x01, 0x00, 0x00, 0x00, 0x00, 0x00, 0x00, 0x00,
];

/// The root of a volume of two leaves, up to its last pointer.
const INNER: [u8; 56] = [
    0x02, 0x00, 0x01, 0x00, 0xc8, 0x0f, 0x00, 0x00, 0x00, 0x00, 0x00, 0x00, 0x00, 0x00, 0x00, 0x00,
    0x00, 0x00, 0x00, 0x00, 0x00, 0x00, 0x00, 0x00, 0x04, 0x00, 0x00, 0x00, 0x0f, 0x00, 0x00, 0x00,
    0x01, 0x00, 0x00, 0x00, 0x00, 0x00, 0x00, 0x20, 0x13, 0x20, 0x00, 0x00, 0x60, 0x07, 0x00, 0x00,
    0x14, 0x20, 0x00, 0x00, 0xbc, 0x0f, 0x00, 0x00,
];

fn leaf_block() -> Block {
    let mut block = Block::zero();
    block.bytes[..72].copy_from_slice(&HEADS);
    block.bytes[4004..].copy_from_slice(&BODIES);
    block
}

/// The items of the leaf.
const STAT: ItemHead = ItemHead {
    dir: 1,
    object: 2,
    offset: 0,
    kind: ItemKind::Stat,
    old: false,
    count: 0,
    length: 44,
};

const ENTRIES: ItemHead = ItemHead {
    dir: 1,
    object: 2,
    offset: 1,
    kind: ItemKind::Directory,
    old: true,
    count: 2,
    length: 48,
};

fn bodies() -> &'static [u8] {
    &BODIES
}

/// Head and body of item `i` of a leaf, if it is one and has so many.
fn item(block: &Block, i: usize) -> Option<(ItemHead, &[u8])> {
    match LeafView::read(block) {
        Some(leaf) if i < leaf.count() => Some((leaf.head(i), leaf.body(i))),
        _ => None,
    }
}

#[test]
fn leaf(rt: HostRuntime) {
    let block = leaf_block();
    assert!(rt; item(&block, 0) == Some((STAT, behind(bodies(), 48))));
    assert!(rt; item(&block, 1) == Some((ENTRIES, front(bodies(), 48))));
    assert!(rt; item(&block, 2).is_none());
    assert!(rt; InnerView::read(&block, 1).is_none());
}

/// Child `i` of an inner node of this level, if it is one and has so many.
fn child(block: &Block, level: u16, i: usize) -> Option<u64> {
    match InnerView::read(block, level) {
        Some(node) if i < node.count() => Some(node.child(i)),
        _ => None,
    }
}

#[test]
fn inner(rt: HostRuntime) {
    let mut block = Block::zero();
    block.bytes[..56].copy_from_slice(&INNER);
    let found = [
        child(&block, 2, 0),
        child(&block, 2, 1),
        child(&block, 2, 2),
        child(&block, 3, 0),
    ];
    assert!(rt; found == [Some(8211), Some(8212), None, None]);
    assert!(rt; LeafView::read(&block).is_none());
}

/// The head of the one item of a leaf that has these bytes there, but for the body's place, where its length lets the body
/// end at the end of the block.
fn only_head(head: &[u8; 24], location: u16) -> Option<ItemHead> {
    let mut block = Block::zero();
    block.bytes[0] = 1;
    block.bytes[2] = 1;
    block.bytes[24..48].copy_from_slice(head);
    block.bytes[44..46].copy_from_slice(&location.to_le_bytes());
    match LeafView::read(&block) {
        Some(leaf) if leaf.count() == 1 => Some(leaf.head(0)),
        _ => None,
    }
}

const INDIRECT: ItemHead = ItemHead {
    dir: 4,
    object: 11,
    offset: 1,
    kind: ItemKind::Indirect,
    old: true,
    count: 0,
    length: 4,
};

const DIRECT: ItemHead = ItemHead {
    dir: 21,
    object: 192,
    offset: 1,
    kind: ItemKind::Direct,
    old: true,
    count: 65535,
    length: 1,
};

/// Heads of a volume of format 3.5 that Linux 6.1 converted, and went on with: the bytes, the place of the body, and the head.
const ONLY: [(&[u8; 24], u16, ItemHead); 4] = [
    (
        b"\x04\0\0\0\x0b\0\0\0\x01\0\0\0\xfe\xff\xff\xff\0\0\x04\0\x5b\x0f\0\0",
        4092,
        INDIRECT,
    ),
    (
        b"\xef\x01\0\0\xf6\x01\0\0\x01\0\0\0\0\0\0\x10\0\0\x04\0\xc8\x07\x01\0",
        4092,
        ItemHead {
            dir: 495,
            object: 502,
            old: false,
            ..INDIRECT
        },
    ),
    (
        b"\x15\0\0\0\xc0\0\0\0\x01\0\0\0\xff\xff\xff\xff\xff\xff\x01\0\xbf\x0d\0\0",
        4095,
        DIRECT,
    ),
    (
        b"\x7e\x01\0\0\x84\x01\0\0\x01\0\0\0\0\0\0\x20\xff\xff\x08\0\x04\x0c\x01\0",
        4088,
        ItemHead {
            dir: 382,
            object: 388,
            old: false,
            length: 8,
            ..DIRECT
        },
    ),
];

/// The same, of which proofs are told nothing.
fn only() -> &'static [(&'static [u8; 24], u16, ItemHead)] {
    &ONLY
}

#[test]
fn kinds_of_both_versions(rt: HostRuntime) {
    for (bytes, location, wanted) in only() {
        assert!(rt; only_head(*bytes, *location) == Some(*wanted));
    }
}
