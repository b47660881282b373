// Changes of a converted volume.
use crate::block_access::{block, block_count, put_block};
use crate::broken::Broken;
use crate::layout::{put_bytes, put_numbers};
use castagnoli::crc32c;
use outside_mem::MemDisk;
use std::alloc::Global;
use vol_block::{Block, BlockNo, u64_at};

/// A node of four blocks.
#[derive(Drop)]
struct Node {
    first: BlockNo,
    bytes: Vec<u8>,
}

impl Node {
    /// The node of four blocks from this one on.
    fn read(alloc: Global, disk: &mut MemDisk, first: BlockNo) -> Result<Node, Broken> {
        let mut bytes = Vec::new(alloc);
        for i in 0..4u64 {
            let part = block(disk, first.saturating_add(i))?;
            bytes.extend_from_slice(&part.bytes)?;
        }
        Ok(Node { first, bytes })
    }

    /// The bytes of the node from this one on, where it has them.
    fn has(&self, at: usize, bytes: &[u8]) -> bool {
        at <= self.bytes.len() && self.bytes[at..].starts_with(bytes)
    }

    /// Gives the node other bytes from this one on, where they end inside of it.
    fn put(&mut self, at: usize, bytes: &[u8]) {
        put_bytes(&mut self.bytes, at, bytes);
    }

    /// Puts numbers at their places behind this one.
    fn put_numbers(&mut self, from: usize, numbers: &[(usize, u64)]) {
        for (at, number) in numbers {
            self.put(from.saturating_add(*at), &number.to_le_bytes());
        }
    }

    /// The byte at a place, 0 behind the end.
    fn byte(&self, at: usize) -> u8 {
        if at < self.bytes.len() {
            self.bytes[at]
        } else {
            0
        }
    }

    /// The number of 32 bits at a place.
    fn number(&self, at: usize) -> usize {
        let mut bytes = [0; 4];
        for i in 0..4usize {
            bytes[i] = self.byte(at.saturating_add(i));
        }
        u32::from_le_bytes(bytes) as usize
    }

    /// The places of the bodies of a leaf's file extents that are of this kind.
    fn extents(&self, alloc: Global, kind: u8) -> Result<Vec<usize>, Broken> {
        let count = self.number(96);
        let mut places = Vec::new(alloc);
        for i in 0..640usize {
            let head = 101 + 25 * i;
            let body = self.number(head + 17).saturating_add(101);
            let is_extent = self.byte(head + 8) == 108;
            if i < count && is_extent && self.byte(body.saturating_add(20)) == kind {
                places.push(body)?;
            }
        }
        Ok(places)
    }

    /// The block of the node of this number, of four.
    fn part(&self, i: usize) -> Block {
        let from = i.saturating_mul(4096);
        let mut to = Block::zero();
        if from <= self.bytes.len() && self.bytes.len() - from >= 4096 {
            to.bytes.copy_from_slice(&self.bytes[from..from + 4096]);
        }
        to
    }

    /// Puts the node back, with its checksum.
    fn write(&mut self, disk: &mut MemDisk) -> Result<(), Broken> {
        if self.bytes.len() < 32 {
            return Err(Broken::Leaf);
        }
        let sum = crc32c(&self.bytes[32..]);
        self.put(0, &sum.to_le_bytes());
        for i in 0..4usize {
            let n = self.first.saturating_add(i as u64);
            put_block(disk, n, &self.part(i))?;
        }
        Ok(())
    }
}

/// Whether a block begins a leaf of this tree: a node tells the volume, its own address, its tree and its level.
fn begins_leaf(head: &Block, first: BlockNo, tree: u64) -> bool {
    let bytes = &head.bytes;
    bytes[32..48] == [0x11; 16]
        && u64_at(bytes, 48) / 4096 == first
        && u64_at(bytes, 88) == tree
        && bytes[100] == 0
}

/// The last leaf of a tree, by the numbers of their blocks.
fn last_leaf(disk: &mut MemDisk, tree: u64) -> Result<BlockNo, Broken> {
    let nodes = block_count(disk)? / 4;
    let mut last = 0;
    for n in 64..nodes {
        let first = n.saturating_mul(4);
        if begins_leaf(&block(disk, first)?, first, tree) {
            last = first;
        }
    }
    if last == 0 {
        return Err(Broken::Leaf);
    }
    Ok(last)
}

/// Takes the root's entry of the saved image out of a converted volume of the empty root directory: these are the last two items of the file
/// tree's last leaf, which has four.
pub fn remove_image(alloc: Global, disk: &mut MemDisk) -> Result<(), Broken> {
    let leaf = last_leaf(disk, 5)?;
    let mut node = Node::read(alloc, disk, leaf)?;
    if !node.has(96, &4u32.to_le_bytes()) {
        return Err(Broken::Leaf);
    }
    node.put(96, &2u32.to_le_bytes());
    node.write(disk)
}

/// The body of a file extent of so many whole blocks from this one on.
fn extent(first: u64, blocks: u64) -> [u8; 53] {
    let first = first.saturating_mul(4096);
    let bytes = blocks.saturating_mul(4096);
    let mut body = [0; 53];
    for (at, number) in &[(0, 1), (8, bytes), (21, first), (29, bytes), (45, bytes)] {
        put_bytes(&mut body, *at, &number.to_le_bytes());
    }
    body[20] = 1;
    body
}

/// The place of the head of item 55 in its node, and that of its body.
const HEAD: usize = 101 + 25 * 55;

const BODY: usize = 13315;

/// The head of an item of the image's extents: from this byte of the image on, with the body at this place.
fn extent_head(from: u64, at: usize) -> [u8; 25] {
    let mut head = [0; 25];
    put_bytes(&mut head, 0, &257u64.to_le_bytes());
    head[8] = 108;
    put_bytes(&mut head, 9, &from.to_le_bytes());
    put_numbers(&mut head, &[(17, u32::try_from(at).unwrap_or(0)), (21, 53)]);
    head
}

/// Whether the image's last extent maps its blocks 256 to 8211 to themselves. It is item 55, the last one of its leaf.
fn has_last_extent(node: &Node) -> bool {
    node.has(96, &56u32.to_le_bytes())
        && node.has(HEAD, &extent_head(256 * 4096, BODY))
        && node.has(101 + BODY, &extent(256, 7956))
}

/// That extent becomes one up to block 7999, and an item more maps those behind to blocks 8212 to 8423.
fn split_extent(node: &mut Node) {
    node.put(96, &57u32.to_le_bytes());
    node.put(101 + BODY, &extent(256, 7744));
    node.put(101 + BODY - 53, &extent(8212, 212));
    node.put(HEAD + 25, &extent_head(8000 * 4096, BODY - 53));
}

/// Moves blocks 8000 to 8211 of the saved image of a converted volume of 12,288 blocks with an empty root directory: they are mapped to the
/// free blocks 8212 to 8423, which get the same bytes.
pub fn move_image(alloc: Global, disk: &mut MemDisk) -> Result<(), Broken> {
    for i in 0..212 {
        let bytes = block(disk, 8000 + i)?;
        put_block(disk, 8212 + i, &bytes)?;
    }
    let leaf = last_leaf(disk, 256)?;
    let mut node = Node::read(alloc, disk, leaf)?;
    if !has_last_extent(&node) {
        return Err(Broken::Leaf);
    }
    split_extent(&mut node);
    node.write(disk)
}

/// What becomes of a file extent.
#[derive(Clone, Copy)]
pub enum Encoding {
    /// It is compressed by zstd. Of a regular one the file has 128 KiB, whatever the disk extent has.
    Compressed,
    /// Its room is laid out, and nothing was written.
    LaidOut,
    /// The disk extent is this block and the next one, and the file has the latter.
    Elsewhere(BlockNo),
}

impl Encoding {
    /// Changes the body of a file extent of this kind, which begins here.
    fn put(self, node: &mut Node, at: usize, kind: u8) {
        match self {
            Encoding::Compressed => {
                node.put(at.saturating_add(16), &[3]);
                if kind != 0 {
                    node.put_numbers(at, &[(8, 131_072), (45, 131_072)]);
                }
            }
            Encoding::LaidOut => node.put(at.saturating_add(20), &[2]),
            Encoding::Elsewhere(block) => {
                let first = block.saturating_mul(4096);
                node.put_numbers(at, &[(21, first), (29, 8192), (37, 4096)]);
            }
        }
    }
}

/// Gives the file extents of a kind in the last leaf of a converted volume's file tree another encoding: 0 is the kind of inline ones and 1 of
/// regular ones. There have to be some.
pub fn encode(
    alloc: Global,
    disk: &mut MemDisk,
    kind: u8,
    encoding: Encoding,
) -> Result<(), Broken> {
    let leaf = last_leaf(disk, 5)?;
    let mut node = Node::read(alloc, disk, leaf)?;
    let places = node.extents(alloc, kind)?;
    if places.is_empty() {
        return Err(Broken::Leaf);
    }
    for &at in &places {
        encoding.put(&mut node, at, kind);
    }
    node.write(disk)
}
