// The superblock of a volume that `mkfs.btrfs -m single -d single --rootdir DIR -L label-of-it` made, beside the values that
// `btrfs inspect-internal dump-super -f` prints of it.
use btr_super::{Super, csum_type, mirror, sum_kind};
use std::process::Abort;
use vol_block::Block;

/// The superblock up to the end of its label; zeros follow.
const HEAD: [u8; 310] = [
    0x7f, 0xee, 0xea, 0x3b, 0, 0, 0, 0, 0, 0, 0, 0, 0, 0, 0, 0, 0, 0, 0, 0, 0, 0, 0, 0, 0, 0, 0, 0,
    0, 0, 0, 0, 0x0a, 0x0b, 0x0c, 0x0d, 0x11, 0x12, 0x13, 0x14, 0xa5, 0xa6, 0xa7, 0xa8, 0xb9, 0xba,
    0xbb, 0xbc, 0, 0, 1, 0, 0, 0, 0, 0, 1, 0, 0, 0, 0, 0, 0, 0, 0x5f, 0x42, 0x48, 0x52, 0x66, 0x53,
    0x5f, 0x4d, 7, 0, 0, 0, 0, 0, 0, 0, 0, 0, 0x52, 0, 0, 0, 0, 0, 0, 0x40, 0x10, 0, 0, 0, 0, 0, 0,
    0, 0, 0, 0, 0, 0, 0, 0, 0, 0, 0, 0, 0, 0, 0, 0, 0, 0, 8, 0, 0, 0, 0, 0, 0x40, 2, 0, 0, 0, 0, 0,
    6, 0, 0, 0, 0, 0, 0, 0, 1, 0, 0, 0, 0, 0, 0, 0, 0, 0x10, 0, 0, 0, 0x40, 0, 0, 0, 0x40, 0, 0, 0,
    0x10, 0, 0, 0x61, 0, 0, 0, 5, 0, 0, 0, 0, 0, 0, 0, 0, 0, 0, 0, 0, 0, 0, 0, 3, 0, 0, 0, 0, 0, 0,
    0, 0x41, 3, 0, 0, 0, 0, 0, 0, 0, 0, 0, 0, 0, 1, 0, 0, 0, 0, 0, 0, 0, 0, 0, 0, 8, 0, 0, 0, 0, 0,
    0, 0x40, 1, 0, 0, 0, 0, 0, 0x10, 0, 0, 0, 0x10, 0, 0, 0, 0x10, 0, 0, 0, 0, 0, 0, 0, 0, 0, 0, 0,
    0, 0, 0, 0, 0, 0, 0, 0, 0, 0, 0, 0, 0, 0, 0, 0, 0, 0, 0, 0, 0, 0xc2, 0x72, 0x99, 0x4d, 0x26,
    0xe0, 0x49, 0xf4, 0x93, 0xe1, 0xed, 0x9f, 0xe9, 0x5a, 0xd4, 0x33, 0x0a, 0x0b, 0x0c, 0x0d, 0x11,
    0x12, 0x13, 0x14, 0xa5, 0xa6, 0xa7, 0xa8, 0xb9, 0xba, 0xbb, 0xbc, 0x6c, 0x61, 0x62, 0x65, 0x6c,
    0x2d, 0x6f, 0x66, 0x2d, 0x69, 0x74,
];

/// Its bootstrap array, from byte 811 on.
const ARRAY: [u8; 97] = [
    0, 1, 0, 0, 0, 0, 0, 0, 0xe4, 0, 0, 0x10, 0, 0, 0, 0, 0, 0, 0, 0x40, 0, 0, 0, 0, 0, 2, 0, 0, 0,
    0, 0, 0, 0, 0, 0, 1, 0, 0, 0, 0, 0, 2, 0, 0, 0, 0, 0, 0, 0, 0, 0x10, 0, 0, 0, 0x10, 0, 0, 0,
    0x10, 0, 0, 1, 0, 0, 0, 1, 0, 0, 0, 0, 0, 0, 0, 0, 0, 0x10, 0, 0, 0, 0, 0, 0xc2, 0x72, 0x99,
    0x4d, 0x26, 0xe0, 0x49, 0xf4, 0x93, 0xe1, 0xed, 0x9f, 0xe9, 0x5a, 0xd4, 0x33,
];

/// Its backup roots, from byte 2859 on.
const BACKUPS: [u8; 672] = [
    0, 0xc0, 0x50, 0, 0, 0, 0, 0, 5, 0, 0, 0, 0, 0, 0, 0, 0, 0x40, 0x10, 0, 0, 0, 0, 0, 5, 0, 0, 0,
    0, 0, 0, 0, 0, 0, 0x52, 0, 0, 0, 0, 0, 5, 0, 0, 0, 0, 0, 0, 0, 0, 0x80, 0x50, 0, 0, 0, 0, 0, 5,
    0, 0, 0, 0, 0, 0, 0, 0, 0, 0x51, 0, 0, 0, 0, 0, 5, 0, 0, 0, 0, 0, 0, 0, 0, 0x40, 0x52, 0, 0, 0,
    0, 0, 5, 0, 0, 0, 0, 0, 0, 0, 0, 0, 0, 8, 0, 0, 0, 0, 0, 0x40, 2, 0, 0, 0, 0, 0, 1, 0, 0, 0, 0,
    0, 0, 0, 0, 0, 0, 0, 0, 0, 0, 0, 0, 0, 0, 0, 0, 0, 0, 0, 0, 0, 0, 0, 0, 0, 0, 0, 0, 0, 0, 0, 0,
    0, 0, 0, 0, 0, 0, 0, 0, 0, 0, 0, 0, 0, 0, 0, 0, 0, 0, 0, 0, 0, 0x50, 0, 0, 0, 0, 0, 6, 0, 0, 0,
    0, 0, 0, 0, 0, 0x40, 0x10, 0, 0, 0, 0, 0, 5, 0, 0, 0, 0, 0, 0, 0, 0, 0x40, 0x50, 0, 0, 0, 0, 0,
    6, 0, 0, 0, 0, 0, 0, 0, 0, 0x80, 0x50, 0, 0, 0, 0, 0, 5, 0, 0, 0, 0, 0, 0, 0, 0, 0, 0x51, 0, 0,
    0, 0, 0, 5, 0, 0, 0, 0, 0, 0, 0, 0, 0x40, 0x52, 0, 0, 0, 0, 0, 5, 0, 0, 0, 0, 0, 0, 0, 0, 0, 0,
    8, 0, 0, 0, 0, 0, 0x40, 2, 0, 0, 0, 0, 0, 1, 0, 0, 0, 0, 0, 0, 0, 0, 0, 0, 0, 0, 0, 0, 0, 0, 0,
    0, 0, 0, 0, 0, 0, 0, 0, 0, 0, 0, 0, 0, 0, 0, 0, 0, 0, 0, 0, 0, 0, 0, 0, 0, 0, 0, 0, 0, 0, 0, 0,
    0, 0, 0, 0, 0, 0, 0, 0, 0x52, 0, 0, 0, 0, 0, 7, 0, 0, 0, 0, 0, 0, 0, 0, 0x40, 0x10, 0, 0, 0, 0,
    0, 5, 0, 0, 0, 0, 0, 0, 0, 0, 0x80, 0x51, 0, 0, 0, 0, 0, 7, 0, 0, 0, 0, 0, 0, 0, 0, 0xc0, 0x50,
    0, 0, 0, 0, 0, 7, 0, 0, 0, 0, 0, 0, 0, 0, 0, 0x51, 0, 0, 0, 0, 0, 5, 0, 0, 0, 0, 0, 0, 0, 0,
    0x40, 0x52, 0, 0, 0, 0, 0, 5, 0, 0, 0, 0, 0, 0, 0, 0, 0, 0, 8, 0, 0, 0, 0, 0, 0x40, 2, 0, 0, 0,
    0, 0, 1, 0, 0, 0, 0, 0, 0, 0, 0, 0, 0, 0, 0, 0, 0, 0, 0, 0, 0, 0, 0, 0, 0, 0, 0, 0, 0, 0, 0, 0,
    0, 0, 0, 0, 0, 0, 0, 0, 0, 0, 0, 0, 0, 0, 0, 0, 0, 0, 0, 0, 0, 0, 0, 0, 0, 0, 0, 0, 0x50, 0, 0,
    0, 0, 0, 4, 0, 0, 0, 0, 0, 0, 0, 0, 0, 0x10, 0, 0, 0, 0, 0, 3, 0, 0, 0, 0, 0, 0, 0, 0, 0x80,
    0x51, 0, 0, 0, 0, 0, 4, 0, 0, 0, 0, 0, 0, 0, 0, 0x40, 0x51, 0, 0, 0, 0, 0, 3, 0, 0, 0, 0, 0, 0,
    0, 0, 0x40, 0x50, 0, 0, 0, 0, 0, 3, 0, 0, 0, 0, 0, 0, 0, 0, 0x40, 0x11, 0, 0, 0, 0, 0, 1, 0, 0,
    0, 0, 0, 0, 0, 0, 0, 0, 8, 0, 0, 0, 0, 0, 0xc0, 1, 0, 0, 0, 0, 0, 1, 0, 0, 0, 0, 0, 0, 0, 0, 0,
    0, 0, 0, 0, 0, 0, 0, 0, 0, 0, 0, 0, 0, 0, 0, 0, 0, 0, 0, 0, 0, 0, 0, 0, 0, 0, 0, 0, 0, 0, 0, 0,
    0, 0, 0, 0, 0, 0, 0, 0, 0, 0, 0, 0, 0, 0,
];

/// The blocks of the volume's device.
const BLOCKS: u64 = 32768;

fn superblock() -> Block {
    let mut block = Block::zero();
    block.bytes[..310].copy_from_slice(&HEAD);
    block.bytes[811..908].copy_from_slice(&ARRAY);
    block.bytes[2859..3531].copy_from_slice(&BACKUPS);
    block
}

/// What is read of a block at a place.
fn read(rt: &impl Abort, block: &Block, place: u64) -> Super {
    Super::read(block, place, BLOCKS).expect(rt, "a superblock")
}

/// The bytes of a superblock.
fn encoded(found: &Super) -> Block {
    let mut block = Block::zero();
    found.encode(&mut block);
    block
}

/// Addresses, counts and flags.
fn numbers(found: &Super) -> [u64; 15] {
    [
        found.bytenr,
        found.flags,
        found.generation,
        found.root,
        found.chunk_root,
        found.log_root,
        found.total_bytes,
        found.bytes_used,
        found.root_dir_objectid,
        found.num_devices,
        found.chunk_root_generation,
        found.compat_ro,
        found.incompat,
        found.dev_item.devid,
        found.dev_item.bytes_used,
    ]
}

/// Sizes, and the kind of checksum and the levels of the roots.
fn sizes(found: &Super) -> [u32; 8] {
    [
        found.sectorsize,
        found.nodesize,
        found.leafsize,
        found.stripesize,
        found.sys_chunk_array_size,
        found.csum_type as u32,
        found.root_level as u32,
        found.chunk_root_level as u32,
    ]
}

const NUMBERS: [u64; 15] = [
    65536, 1, 7, 5373952, 1064960, 0, 134217728, 147456, 6, 1, 5, 3, 0x341, 1, 20971520,
];

const SIZES: [u32; 8] = [4096, 16384, 16384, 4096, 97, 0, 0, 0];

#[test]
fn reads(rt: HostRuntime) {
    let found = read(&rt, &superblock(), 16);
    assert!(rt; numbers(&found) == NUMBERS);
    assert!(rt; sizes(&found) == SIZES);
    assert!(rt; found.label.starts_with(b"label-of-it\0"));
    assert!(rt; found.dev_item.fsid == found.fsid);
    assert!(rt; found.fsid.starts_with(&[0x0a, 0x0b, 0x0c, 0x0d]));
}

/// The superblock of a volume with another identifier, as `btrfstune -M` gives it: that of the nodes stands behind it.
fn renamed(found: &Super) -> Super {
    Super {
        fsid: [0x5a; 16],
        incompat: found.incompat | 0x400,
        metadata_uuid: found.fsid,
        ..*found
    }
}

#[test]
fn nodes_keep_their_identifier(rt: HostRuntime) {
    let found = read(&rt, &superblock(), 16);
    let block = encoded(&renamed(&found));
    assert!(rt; &block.bytes[571..587] == found.fsid.as_slice());
    let again = read(&rt, &block, 16);
    assert!(rt; again.fsid == [0x5a; 16]);
    assert!(rt; [found.node_fsid(), again.node_fsid()] == [found.fsid, found.fsid]);
}

/// The number of the kind of checksum that has this number, if one has it.
fn kind_again(number: u16) -> Option<u16> {
    match sum_kind(number) {
        Some(kind) => Some(csum_type(kind)),
        None => None,
    }
}

#[test]
fn writes(rt: HostRuntime) {
    let block = superblock();
    let found = read(&rt, &block, 16);
    assert!(rt; encoded(&found) == block);
    assert!(rt; kind_again(found.csum_type) == Some(0));
}

/// The copy that mkfs wrote at 64 MiB differs in the four bytes of its sum and in its address.
#[test]
fn copies(rt: HostRuntime) {
    let mut copy = Block::zero();
    mirror(&superblock(), 16384, &mut copy);
    let mut wanted = superblock();
    wanted.bytes[..4].copy_from_slice(&[0xdf, 0x8f, 0xc2, 0xf5]);
    wanted.bytes[48..56].copy_from_slice(&[0, 0, 0, 4, 0, 0, 0, 0]);
    assert!(rt; copy == wanted);
    assert!(rt; Super::read(&copy, 16384, BLOCKS).is_ok());
}
