// What a census counts, by the blocks that are read.
use crate::changes::{Change, change};
use host_edge_progress::{Census, Leaf, Round, VolumeUse};
use outside::{Block, BlockNo};
use std::process::Abort;

/// The object, the offset and the pointers of a leaf.
type Pointers = (u8, u8, &'static [u8]);

/// A leaf of one item of an object: pointers to these blocks, from a byte of the file on.
fn leaf(object: u8, offset: u8, pointers: &[u8]) -> Block {
    let mut block = Block::zero();
    if pointers.len() > 256 {
        return block;
    }
    let length = pointers.len() * 4;
    let place = 4096 - length;
    block.bytes[0] = 1;
    block.bytes[2] = 1;
    block.bytes[24] = 1;
    block.bytes[28] = object;
    block.bytes[32] = offset;
    block.bytes[39] = 0x10;
    block.bytes[42..44].copy_from_slice(&(length as u16).to_le_bytes());
    block.bytes[44..46].copy_from_slice(&(place as u16).to_le_bytes());
    block.bytes[46] = 1;
    for (n, pointer) in pointers.iter().enumerate() {
        block.bytes[place + 4 * n] = *pointer;
    }
    block
}

/// How a block is read.
#[derive(Clone, Copy)]
enum How {
    Here(BlockNo),
    Ahead,
}

/// A block that is read, a leaf, an inner node or the block of a file, and the round and the blocks that a census then tells.
type Read = (How, Option<Pointers>, Round, u64);

fn block_of(leaf_of: Option<Pointers>) -> Block {
    match leaf_of {
        Some((object, offset, pointers)) => leaf(object, offset, pointers),
        None => Block::zero(),
    }
}

/// A census of a volume with 100 blocks in use, two of them before the tree, tells so behind each of these reads.
fn counts(rt: &impl Abort, with_files: bool, reads: &[Read]) {
    let volume = VolumeUse {
        used: 100,
        journal: 1,
        front: 2,
    };
    let mut census = Census::new(16, volume);
    for (how, leaf_of, round, done) in reads {
        let block = block_of(*leaf_of);
        match how {
            How::Here(n) => census.reads(*n, &block, with_files),
            How::Ahead => census.reads_ahead(&block),
        }
        assert!(rt; (census.round(), census.done()) == (*round, *done));
    }
}

/// How a leaf is changed, and the pointers that it then has.
const LEAVES: &[(&[Change], Option<u64>)] = &[
    // a hole is no block
    (&[], Some(2)),
    // direct bytes are no pointers
    (&[(39, b"\x20")], Some(0)),
    // an item of format 3.5
    (&[(36, b"\xfe\xff\xff\xff"), (46, b"\0")], Some(2)),
    // a first item that does not end with the block
    (&[(42, b"\x08")], None),
    // more heads of items than a block has room for
    (&[(42, b"\x0c"), (2, b"\xaa")], None),
];

fn pointers_of(block: &Block) -> Option<u64> {
    match Leaf::of(block) {
        Some(leaf) => Some(leaf.pointers),
        None => None,
    }
}

#[test]
fn a_leaf_points_to_blocks(rt: HostRuntime) {
    assert!(rt; Leaf::of(&Block::zero()).is_none());
    let mut block = leaf(7, 1, &[3, 0, 4]);
    for (changes, pointers) in LEAVES {
        change(&mut block, *changes);
        assert!(rt; pointers_of(&block) == *pointers);
    }
}

/// A leaf of an object that comes before all others.
const LOW: Option<Pointers> = Some((9, 1, &[1]));

const FIRST: Option<Pointers> = Some((7, 1, &[3, 4]));

const LAST: Option<Pointers> = Some((7, 9, &[5]));

/// Block 16 is the superblock, and two blocks stand before the tree. It has an inner node and two leaves, which are read once more, the last one first.
/// A second round never ends.
const WALK: &[Read] = &[
    (How::Here(16), LOW, Round::First, 0),
    (How::Here(17), LOW, Round::First, 1),
    (How::Here(18), LOW, Round::First, 2),
    (How::Here(40), None, Round::First, 3),
    (How::Here(41), FIRST, Round::First, 6),
    (How::Here(42), LAST, Round::First, 8),
    (How::Here(42), LAST, Round::First, 8),
    (How::Here(41), FIRST, Round::Second, 5),
    (How::Here(42), LAST, Round::Second, 7),
    (How::Here(41), FIRST, Round::Second, 7),
];

/// Files that are read are not counted twice.
const FILES: &[Read] = &[
    (How::Here(17), None, Round::First, 1),
    (How::Here(18), None, Round::First, 2),
    (How::Here(41), FIRST, Round::First, 5),
    (How::Here(42), LAST, Round::First, 7),
    (How::Here(41), FIRST, Round::Second, 3),
    (How::Here(3), None, Round::Second, 4),
    (How::Here(4), None, Round::Second, 5),
];

/// Of two blocks before the tree one is read. Then two leaves are read ahead, the last one first, and with them an inner node. They count then, and so
/// does the other block before them; they count no more when they are asked for, but they do in the second round.
const AHEAD: &[Read] = &[
    (How::Here(17), None, Round::First, 1),
    (How::Ahead, LAST, Round::First, 4),
    (How::Ahead, FIRST, Round::First, 7),
    (How::Ahead, None, Round::First, 7),
    (How::Here(40), FIRST, Round::First, 7),
    (How::Here(40), LAST, Round::First, 7),
    (How::Here(40), FIRST, Round::Second, 5),
    (How::Here(40), LAST, Round::Second, 7),
];

#[test]
fn a_walk_accounts_for_each_block(rt: HostRuntime) {
    for (with_files, reads) in &[(false, WALK), (true, FILES), (false, AHEAD)] {
        counts(&rt, *with_files, *reads);
    }
}
