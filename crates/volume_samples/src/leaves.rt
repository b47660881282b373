// The three leaves of a sample, each in its four blocks.
ghost use Rattle.std.specs.Prelude.{◌≡◌, ◌+◌, ◌≤◌, length};

use crate::bodies::{
    chunk, chunk_twice, device, entry, file_name, file_root, inode, key, root_name,
};
use crate::sample::{
    CHUNK_LEAF, CHUNK_TREE, FILE_LEAF, FSID, METADATA, MOMENT, NODE, ROOT_LEAF, SYSTEM,
    SYSTEM_MADE, Sample, SampleAnswer, USER_MADE,
};
use btr_node::{Expect, NodeWriter};
use castagnoli::name_hash;
use csum_kinds::SumKind;
use outside::Memory;
use outside_mem::MemDisk;
use std::alloc::Global;
use vol_block::{Block, BlockNo};

/// What is said of a leaf at an address that belongs to this tree, with a checksum of this kind.
fn want(address: u64, owner: u64, sums: SumKind) -> Expect
    ensures { result.level ≡ 0 }
{
    Expect {
        address,
        fsid: FSID,
        owner,
        level: 0,
        generation: 1,
        sums,
    }
}

fn block_of(bytes: &[u8]) -> Block
    requires { length bytes.now ≡ 4096 }
{
    let mut block = Block::zero();
    block.bytes.copy_from_slice(bytes);
    block
}

/// Puts the bytes of a node into the four blocks from this one on.
fn put_node(disk: &mut MemDisk, first: BlockNo, node: &[u8]) -> Result<(), Memory>
    requires size { length node.now ≡ 16384 }
    requires disk { length disk.old.history.start ≡ 12288 }
    requires inside { first + 4 ≤ 12288 }
    ensures closed { disk.new.opened ≡ disk.old.opened }
    ensures size { length disk.new.history.start ≡ 12288 }
{
    disk.set_block(first, &block_of(&node[0..4096]))?;
    disk.set_block(first + 1, &block_of(&node[4096..8192]))?;
    disk.set_block(first + 2, &block_of(&node[8192..12288]))?;
    disk.set_block(first + 3, &block_of(&node[12288..16384]))
}

/// The chunk tree: the device and the two chunks.
pub fn put_chunk_leaf(
    alloc: Global,
    disk: &mut MemDisk,
    sample: &Sample,
) -> Result<(), SampleAnswer>
    requires { length disk.old.history.start ≡ 12288 }
    ensures closed { disk.new.opened ≡ disk.old.opened }
    ensures size { length disk.new.history.start ≡ 12288 }
{
    let mut writer = NodeWriter::new(alloc, NODE)?;
    writer.start(&want(CHUNK_LEAF, 3, sample.sums), CHUNK_TREE);
    writer.push(key(1, 216, 1), &device().to_bytes())?;
    writer.push(key(256, 228, SYSTEM), &chunk(SYSTEM, 2))?;
    let metadata = key(256, 228, METADATA);
    match sample.mirror {
        Some(mirror) => writer.push(metadata, &chunk_twice(METADATA, mirror))?,
        None => writer.push(metadata, &chunk(METADATA, 4))?,
    }
    put_node(disk, CHUNK_LEAF / 4096, writer.finish())?;
    Ok(())
}

/// The root tree: the root item of the file tree.
pub fn put_root_leaf(alloc: Global, disk: &mut MemDisk, sample: &Sample) -> Result<(), SampleAnswer>
    requires { length disk.old.history.start ≡ 12288 }
    ensures closed { disk.new.opened ≡ disk.old.opened }
    ensures size { length disk.new.history.start ≡ 12288 }
{
    let mut writer = NodeWriter::new(alloc, NODE)?;
    writer.start(&want(ROOT_LEAF, 1, sample.sums), CHUNK_TREE);
    writer.push(key(5, 132, 0), &file_root())?;
    put_node(disk, ROOT_LEAF / 4096, writer.finish())?;
    Ok(())
}

/// The file tree: the root directory, whose size is twice the length of its one name, and the file `a`.
pub fn put_file_leaf(alloc: Global, disk: &mut MemDisk, sample: &Sample) -> Result<(), SampleAnswer>
    requires { length disk.old.history.start ≡ 12288 }
    ensures closed { disk.new.opened ≡ disk.old.opened }
    ensures size { length disk.new.history.start ≡ 12288 }
{
    let mut writer = NodeWriter::new(alloc, NODE)?;
    writer.start(&want(FILE_LEAF, sample.owner, sample.sums), CHUNK_TREE);
    writer.push(
        key(256, 1, 0),
        &inode(0o40755, 2, SYSTEM_MADE, MOMENT).to_bytes(),
    )?;
    writer.push(key(256, 12, 256), &root_name())?;
    writer.push(key(256, 84, u64::from(name_hash(b"a"))), &entry())?;
    writer.push(key(256, 96, 2), &entry())?;
    writer.push(
        key(257, 1, 0),
        &inode(0o100644, 0, USER_MADE, sample.atime).to_bytes(),
    )?;
    writer.push(key(257, 12, 256), &file_name())?;
    put_node(disk, FILE_LEAF / 4096, writer.finish())?;
    Ok(())
}
