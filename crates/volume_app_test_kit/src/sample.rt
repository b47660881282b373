// Small volumes whose tree is one leaf, and those that the maker of samples makes.
use crate::block_access::{block, put_block};
use crate::broken::Broken;
use crate::layout::{Entry, Stat, Super, TOP, directory, mark, put_numbers, r5};
use outside::{Access, BlockSource, Disk};
use outside_mem::MemDisk;
use reiser_make::make;
use std::alloc::Global;
use vol_block::Block;
use volume_samples::{Item, Leaf, Object, Part};

/// The byte of which the file of [`one_file`] consists.
pub const MARKED: u8 = 0x5a;

/// The leaf of the small volumes, which is the root of their tree. Blocks up to it are used.
const ROOT: u32 = 51;

/// A volume of so many blocks on a disk, with this tree. Blocks 0 to 51 are used, and those from `from` to `to`.
fn volume(
    alloc: Global,
    blocks: u32,
    tree: &Leaf,
    (from, to): (u32, u32),
) -> Result<MemDisk, Broken> {
    let used = to.saturating_sub(from).saturating_add(52);
    let volume = Super {
        blocks,
        free: blocks.saturating_sub(used),
        root: ROOT,
        journal: 32,
        height: 2,
        magic: *b"ReIsEr3Fs",
    };
    let mut bitmap = Block::zero();
    mark(&mut bitmap, 0, 52);
    mark(&mut bitmap, from, to);
    let mut disk = MemDisk::new(alloc, u64::from(blocks))?;
    put_block(&mut disk, 16, &volume.block())?;
    put_block(&mut disk, 17, &bitmap)?;
    put_block(&mut disk, u64::from(ROOT), &tree.finish())?;
    Ok(disk)
}

/// The entries that a root directory has at least.
fn dots() -> [Entry; 2] {
    [Entry::dot(TOP), Entry::up(Object(0, 1))]
}

/// A leaf with a root directory, of these entries.
fn root_leaf(alloc: Global, entries: &[Entry]) -> Result<Leaf, Broken> {
    let body = directory(alloc, entries)?;
    let stat = Stat {
        mode: 0o40755,
        names: 2,
        size: body.len() as u64,
        sectors: 1,
    };
    let count = u16::try_from(entries.len()).unwrap_or(0);
    let mut leaf = Leaf::new();
    leaf.add(Item::of(TOP, Part::Stat), &stat.body());
    leaf.add(Item::of(TOP, Part::Entries(1, count)), &body);
    Ok(leaf)
}

/// A volume of 2,048 blocks with an empty root directory. Blocks 0 to 51 are used.
pub fn empty_root(alloc: Global) -> Result<MemDisk, Broken> {
    volume(alloc, 2048, &root_leaf(alloc, &dots())?, (0, 0))
}

/// A volume of 2,059 blocks with an empty root directory. The last 11 blocks are reserved, since no chunk of Btrfs holds them, and two of
/// them are used.
pub fn used_end(alloc: Global) -> Result<MemDisk, Broken> {
    let mut disk = volume(alloc, 2059, &root_leaf(alloc, &dots())?, (2057, 2059))?;
    let bytes = Block {
        bytes: [b'e'; 4096],
    };
    for n in 2057..2059 {
        put_block(&mut disk, n, &bytes)?;
    }
    Ok(disk)
}

/// A volume of 20,000 blocks with a file `m` of 4,096 bytes [`MARKED`], whose one pointer is this. Blocks 0 to 51 and 16384 are used, and the
/// bytes lie in block 16384, where the first copy of a Btrfs superblock belongs.
pub fn one_file(alloc: Global, pointer: u32) -> Result<MemDisk, Broken> {
    with_file(alloc, pointer, 16384)
}

/// The same volume with its file in block 16400, in the same unit, and not where the copy belongs.
pub fn file_behind_copy(alloc: Global) -> Result<MemDisk, Broken> {
    with_file(alloc, 16400, 16400)
}

/// The file `m`.
const FILE: Object = Object(2, 4);

/// The leaf of a root directory with a file `m` of 4,096 bytes, whose one pointer is this.
fn file_leaf(alloc: Global, pointer: u32) -> Result<Leaf, Broken> {
    let [dot, up] = dots();
    let entry = Entry {
        place: r5(b"m"),
        object: FILE,
        name: *b"m\0\0\0\0\0\0\0",
    };
    let stat = Stat {
        mode: 0o100644,
        names: 1,
        size: 4096,
        sectors: 8,
    };
    let mut leaf = root_leaf(alloc, &[dot, up, entry])?;
    leaf.add(Item::of(FILE, Part::Stat), &stat.body());
    leaf.add(Item::of(FILE, Part::Pointers(1)), &pointer.to_le_bytes());
    Ok(leaf)
}

/// A volume of 20,000 blocks with a file `m`, whose one pointer is this, and whose bytes lie in block `at`.
fn with_file(alloc: Global, pointer: u32, at: u32) -> Result<MemDisk, Broken> {
    let leaf = file_leaf(alloc, pointer)?;
    let mut disk = volume(alloc, 20000, &leaf, (at, at.saturating_add(1)))?;
    let bytes = Block {
        bytes: [MARKED; 4096],
    };
    put_block(&mut disk, u64::from(at), &bytes)?;
    Ok(disk)
}

/// The sample volume of a number, at most 4000, as `reiser_make` makes it, on a disk of so many blocks.
fn written(alloc: Global, number: u32, blocks: u64) -> Result<MemDisk, Broken> {
    let mut disk = MemDisk::new(alloc, blocks)?;
    disk.open("", Access::Write)?;
    if number > 4000 || disk.len() < blocks || blocks > 20000 {
        return Err(Broken::Short(blocks));
    }
    make(alloc, number, blocks, &mut disk)?;
    disk.settle();
    Ok(disk)
}

/// The sample volume of a number, at most 4000, as `reiser_make` makes it, of so many blocks, at most 20,000.
///
/// The disk keeps no block of zeros, so that copies of it are small.
pub fn made(alloc: Global, number: u32, blocks: u64) -> Result<MemDisk, Broken> {
    let mut from = written(alloc, number, blocks)?;
    let mut disk = MemDisk::new(alloc, blocks)?;
    for n in 0..blocks {
        let bytes = block(&mut from, n)?;
        if !bytes.is_zero() {
            put_block(&mut disk, n, &bytes)?;
        }
    }
    Ok(disk)
}

/// How many numbers the object-id map of a superblock has at most: from byte 204 on it has four bytes for each.
const MAP: u16 = 972;

/// Gives a volume an object-id map that fills its superblock, where 77 numbers would fill the first 512 bytes.
pub fn fill_map(disk: &mut MemDisk) -> Result<(), Broken> {
    let mut superblock = block(disk, 16)?;
    put_numbers(
        &mut superblock.bytes,
        &[(46, u32::from(MAP) | u32::from(MAP) << 16)],
    );
    for i in 0..u32::from(MAP) {
        let at = (i as usize).saturating_mul(4).saturating_add(204);
        let number = i.wrapping_mul(3).wrapping_add(1);
        put_numbers(&mut superblock.bytes, &[(at, number)]);
    }
    put_block(disk, 16, &superblock)
}
