// A home volume of 65,536 blocks: one directory with 300 files, each of two blocks and a tail.
use crate::block_access::{block, put_block};
use crate::broken::Broken;
use crate::layout::{Entry, Stat, Super, TOP, directory, mark, put_bytes, put_numbers, r5};
use outside_mem::MemDisk;
use std::alloc::Global;
use vol_block::Block;
use volume_samples::{Item, Leaf, Object, Part};

/// The blocks of the volume.
const BLOCKS: u32 = 65536;

/// The blocks that are used: the volume's own up to block 8210, 156 nodes, 600 blocks of files, the second bitmap block, and 588
/// that nothing names.
const USED: u32 = 8211 + 156 + 600 + 1 + 588;

/// The node that is the root of the tree; the leaves lie behind it.
const ROOT: u32 = 8211;

/// How many leaves there are: one with the root directory, four with the entries of the other, and one for each two files.
const LEAVES: u32 = 1 + 4 + 150;

/// The first block of the files.
const DATA: u32 = 8400;

const HOME: Object = Object(2, 3);

/// The object of a file by its number.
fn file(i: u32) -> Object {
    Object(3, i.wrapping_add(4))
}

/// The last decimal digit of a number.
fn digit(x: u32) -> u8 {
    b'0' + (x % 10) as u8
}

/// The entry of a file by its number, whose name is `f` and seven digits. The places of these names ascend with their numbers.
fn entry_of(i: u32) -> Entry {
    let name = [
        b'f',
        b'0',
        b'0',
        b'0',
        b'0',
        digit(i / 100),
        digit(i / 10),
        digit(i),
    ];
    Entry {
        place: r5(&name),
        object: file(i),
        name,
    }
}

/// Puts the leaf of this number, counted from 0.
fn put_leaf(disk: &mut MemDisk, number: u32, leaf: &Leaf) -> Result<(), Broken> {
    let place = ROOT.wrapping_add(1).wrapping_add(number);
    put_block(disk, u64::from(place), &leaf.finish())
}

/// The stat item of a directory.
fn folder(names: u32, size: u64, sectors: u32) -> Stat {
    Stat {
        mode: 0o40755,
        names,
        size,
        sectors,
    }
}

/// Puts the leaf of the root directory and of the stat item of the other.
fn put_top(alloc: Global, disk: &mut MemDisk) -> Result<(), Broken> {
    let home = Entry {
        place: r5(b"home"),
        object: HOME,
        name: *b"home\0\0\0\0",
    };
    let body = directory(alloc, &[Entry::dot(TOP), Entry::up(Object(0, 1)), home])?;
    let mut leaf = Leaf::new();
    leaf.add(Item::of(TOP, Part::Stat), &folder(3, 72, 1).body());
    leaf.add(Item::of(TOP, Part::Entries(1, 3)), &body);
    leaf.add(Item::of(HOME, Part::Stat), &folder(2, 7248, 15).body());
    put_leaf(disk, 0, &leaf)
}

/// The entries of 75 files from this one on, behind those that each directory has if they are the first ones.
fn entries_from(alloc: Global, from: u32) -> Result<Vec<Entry>, Broken> {
    let mut entries = Vec::new(alloc);
    if from == 0 {
        entries.extend_from_slice(&[Entry::dot(HOME), Entry::up(TOP)])?;
    }
    for i in 0..75u32 {
        entries.push(entry_of(from.wrapping_add(i)))?;
    }
    Ok(entries)
}

/// Puts the leaf of these entries, the first of which has this place.
fn put_entries(
    alloc: Global,
    disk: &mut MemDisk,
    number: u32,
    first: u32,
    entries: &[Entry],
) -> Result<(), Broken> {
    let count = u16::try_from(entries.len()).unwrap_or(0);
    let body = directory(alloc, entries)?;
    let mut leaf = Leaf::new();
    leaf.add(Item::of(HOME, Part::Entries(first, count)), &body);
    put_leaf(disk, number, &leaf)
}

/// Puts the leaf with the entries of 75 files from this one on.
fn put_names(alloc: Global, disk: &mut MemDisk, number: u32, from: u32) -> Result<(), Broken> {
    let entries = entries_from(alloc, from)?;
    let first = if from == 0 { 1 } else { entry_of(from).place };
    put_entries(alloc, disk, number, first, &entries)
}

/// The first block of a file.
fn data_of(i: u32) -> u32 {
    DATA.wrapping_add(i.wrapping_mul(2))
}

/// Adds a file of 10,000 bytes to a leaf.
fn add_file(leaf: &mut Leaf, i: u32) {
    let stat = Stat {
        mode: 0o100644,
        names: 1,
        size: 10000,
        sectors: 24,
    };
    let first = data_of(i);
    let mut pointers = [0; 8];
    put_numbers(&mut pointers, &[(0, first), (4, first.wrapping_add(1))]);
    leaf.add(Item::of(file(i), Part::Stat), &stat.body());
    leaf.add(Item::of(file(i), Part::Pointers(1)), &pointers);
    leaf.add(Item::of(file(i), Part::Bytes(8193)), &[b't'; 1808]);
}

/// Puts the two blocks of a file, filled with one letter each.
fn put_data(disk: &mut MemDisk, i: u32) -> Result<(), Broken> {
    let first = u64::from(data_of(i));
    put_block(
        disk,
        first,
        &Block {
            bytes: [b'1'; 4096],
        },
    )?;
    put_block(
        disk,
        first.wrapping_add(1),
        &Block {
            bytes: [b'2'; 4096],
        },
    )
}

/// Puts the leaf of this number, with a file and the next one, and their blocks.
fn put_files(disk: &mut MemDisk, number: u32, first: u32) -> Result<(), Broken> {
    let mut leaf = Leaf::new();
    for next in 0..2u32 {
        let i = first.wrapping_add(next);
        add_file(&mut leaf, i);
        put_data(disk, i)?;
    }
    put_leaf(disk, number, &leaf)
}

/// Adds the key and the pointer of the leaf of this number to the root node, which has no key of the first one.
fn add_child(root: &mut Block, i: u32, leaf: &Block) {
    let keys = 24 + 16 * (LEAVES as usize - 1);
    if i > 0 {
        put_bytes(
            &mut root.bytes,
            (i as usize).saturating_mul(16).saturating_add(8),
            &leaf.bytes[24..40],
        );
    }
    let at = (i as usize).saturating_mul(8).saturating_add(keys);
    let place = ROOT.wrapping_add(1).wrapping_add(i);
    put_numbers(
        &mut root.bytes,
        &[(at, place), (at.saturating_add(4), 4072)],
    );
}

/// Puts the root node, behind all leaves.
fn put_root(disk: &mut MemDisk) -> Result<(), Broken> {
    let mut root = Block::zero();
    let taken = 16 * (LEAVES - 1) + 8 * LEAVES;
    put_numbers(
        &mut root.bytes,
        &[(0, 2 | (LEAVES - 1) << 16), (4, 4072 - taken)],
    );
    for i in 0..LEAVES {
        let leaf = block(disk, u64::from(ROOT + 1 + i))?;
        add_child(&mut root, i, &leaf);
    }
    put_block(disk, u64::from(ROOT), &root)
}

/// The bits of the second bitmap block: its own, and 158 runs of blocks that nothing names, with a free block behind each.
fn high_bits() -> Block {
    let mut high = Block::zero();
    mark(&mut high, 0, 1);
    let mut from = 2u32;
    for run in 0..158u32 {
        let to = from.wrapping_add(if run < 114 { 4 } else { 3 });
        mark(&mut high, from, to);
        from = to.wrapping_add(1);
    }
    high
}

/// Puts the superblock and the two bitmap blocks.
fn put_front(disk: &mut MemDisk) -> Result<(), Broken> {
    let volume = Super {
        blocks: BLOCKS,
        free: BLOCKS - USED,
        root: ROOT,
        journal: 8192,
        height: 3,
        magic: *b"ReIsEr2Fs",
    };
    let mut low = Block::zero();
    mark(&mut low, 0, ROOT + 156);
    mark(&mut low, DATA, DATA + 600);
    put_block(disk, 16, &volume.block())?;
    put_block(disk, 17, &low)?;
    put_block(disk, 32768, &high_bits())
}

/// Puts all leaves, and the blocks of the files.
fn put_leaves(alloc: Global, disk: &mut MemDisk) -> Result<(), Broken> {
    put_top(alloc, disk)?;
    for part in 0..4u32 {
        put_names(alloc, disk, part + 1, part * 75)?;
    }
    for pair in 0..150u32 {
        put_files(disk, pair + 5, pair * 2)?;
    }
    Ok(())
}

/// A home volume of 65,536 blocks: one directory with 300 files of 10,000 bytes, each with two pointers and a tail of 1,808 bytes; beside
/// them 588 blocks in 158 runs are used that nothing names, and there are three runs of free units.
pub fn home(alloc: Global) -> Result<MemDisk, Broken> {
    let mut disk = MemDisk::new(alloc, u64::from(BLOCKS))?;
    put_front(&mut disk)?;
    put_leaves(alloc, &mut disk)?;
    put_root(&mut disk)?;
    Ok(disk)
}
