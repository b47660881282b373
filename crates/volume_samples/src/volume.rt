// Volumes around their trees.
ghost use Rattle.std.specs.Prelude.{◌≡◌, ◌+◌, ◌≤◌, ◌<◌, None, IfOk, length};

use outside::Memory;
use outside_mem::MemDisk;
use std::alloc::Global;
use vol_block::{Block, BlockNo, put_u16, put_u32};

/// The root of the tree.
const ROOT: u32 = 51;

/// The superblock of a volume of so many blocks, as many of them used, whose tree has so many levels.
fn superblock(blocks: u32, used: u64, levels: u16) -> Block {
    let mut block = Block::zero();
    let bytes = &mut block.bytes;
    put_u32(bytes, 0, blocks);
    put_u32(bytes, 4, u64::from(blocks).saturating_sub(used) as u32);
    put_u32(bytes, 8, ROOT);
    put_u32(bytes, 12, 18);
    put_u32(bytes, 20, 32);
    put_u16(bytes, 44, 4096);
    put_u16(bytes, 50, 1);
    bytes[52..61].copy_from_slice(b"ReIsEr3Fs");
    put_u16(bytes, 68, levels.saturating_add(1));
    block
}

/// How many blocks these runs have.
fn count(used: &[(u64, u64)]) -> u64 {
    let mut count = 0u64;
    for run in used {
        count = count.saturating_add(run.1.saturating_sub(run.0));
    }
    count
}

/// Bitmap block `k`, which marks the used blocks among the 32768 ones from 32768·k on.
fn bitmap(k: u64, used: &[(u64, u64)]) -> Block {
    let mut block = Block::zero();
    for run in used {
        for b in run.0..run.1 {
            if b / 32768 == k {
                block.bytes[(b % 32768 / 8) as usize] |= 1 << (b % 8);
            }
        }
    }
    block
}

/// A volume of so many blocks up to its tree; each pair of blocks is a run of used blocks and the end of it.
fn without_tree(
    alloc: Global,
    blocks: u32,
    levels: u16,
    used: &[(u64, u64)],
) -> Result<MemDisk, Memory>
    requires { 2048 ≤ blocks }
    ensures size { IfOk result (λ d. length d.history.start ≡ blocks) }
    ensures closed { IfOk result (λ d. d.opened ≡ None) }
{
    let mut disk = MemDisk::new(alloc, blocks as u64)?;
    disk.set_block(16, &superblock(blocks, count(used), levels))?;
    disk.set_block(17, &bitmap(0, used))?;
    for n in 32768..blocks as u64 {
        if n % 32768 == 0 {
            disk.set_block(n, &bitmap(n / 32768, used))?;
        }
    }
    Ok(disk)
}

/// A volume of so many blocks whose tree is this leaf, in block 51. Each pair of blocks is a run of used blocks and the end of it.
pub fn with_leaf(
    alloc: Global,
    blocks: u32,
    used: &[(u64, u64)],
    leaf: &Block,
) -> Result<MemDisk, Memory>
    requires { 2048 ≤ blocks }
    ensures size { IfOk result (λ d. length d.history.start ≡ blocks) }
    ensures closed { IfOk result (λ d. d.opened ≡ None) }
{
    let mut disk = without_tree(alloc, blocks, 1, used)?;
    disk.set_block(51, leaf)?;
    Ok(disk)
}

/// A volume as [`with_leaf`] makes it, whose tree is a node in block 51 over these two leaves in blocks 52 and 53.
pub fn with_leaves(
    alloc: Global,
    blocks: u32,
    used: &[(u64, u64)],
    first: &Block,
    second: &Block,
) -> Result<MemDisk, Memory>
    requires { 2048 ≤ blocks }
    ensures size { IfOk result (λ d. length d.history.start ≡ blocks) }
    ensures closed { IfOk result (λ d. d.opened ≡ None) }
{
    let mut disk = without_tree(alloc, blocks, 2, used)?;
    disk.set_block(51, &node_over(second))?;
    disk.set_block(52, first)?;
    disk.set_block(53, second)?;
    Ok(disk)
}

/// The node over the leaves 52 and 53. Its key is the first one of the second.
fn node_over(second: &Block) -> Block {
    let mut block = Block::zero();
    let bytes = &mut block.bytes;
    put_u16(bytes, 0, 2);
    put_u16(bytes, 2, 1);
    bytes[24..40].copy_from_slice(&second.bytes[24..40]);
    put_u32(bytes, 40, 52);
    put_u32(bytes, 48, 53);
    block
}

/// Puts other bytes at a place of a block.
pub fn change(disk: &mut MemDisk, n: BlockNo, at: usize, bytes: &[u8]) -> Result<(), Memory>
    requires block { n < length disk.old.history.start }
    requires inside { at + length bytes.now ≤ 4096 }
    ensures closed { disk.new.opened ≡ disk.old.opened }
    ensures size { length disk.new.history.start ≡ length disk.old.history.start }
{
    let mut block = Block::zero();
    disk.block(n, &mut block);
    block.bytes[at..at + bytes.len()].copy_from_slice(bytes);
    disk.set_block(n, &block)
}
