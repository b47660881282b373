// The items of a small volume's pieces and nodes. Each checksum is that of the same items as an independent program writes
// them.
ghost use Rattle.std.specs.Prelude.{◌≡◌, ◌+◌, ◌≤◌, false, length, All, IfOk, OnOk};
ghost use Rattle.space_items.specs.Nodes.{AreNodes};
ghost use Rattle.space_items.specs.Stream.{ArePieces, FitsExtents, FitsSums};

use btr_keys::Key;
use castagnoli::raw_crc;
use csum_kinds::SumKind;
use outside::{Access, BlockSource, Disk, Fault, Memory};
use outside_mem::MemDisk;
use reiser_bitmap::Bitmap;
use space_items::{ExtentStream, NodeList, SumStream, TreeNode, checksums, extents};
use std::alloc::Global;
use std::test::*;
use unit_plan::{Need, Piece, PieceList, PlanAnswer, choose, plans_fit};
use vol_block::Block;

/// The blocks of the volume. Those below 8212 are in use.
const BLOCKS: u64 = 12288;

const NODESIZE: u32 = 16384;

/// Pieces: of the volume, of a file, of a tail.
const PIECES: [Piece; 5] = [
    Piece {
        from: Some(256),
        count: 1000,
        owner: None,
        place: 256,
    },
    Piece {
        from: Some(1256),
        count: 901,
        owner: Some((258, 0)),
        place: 1256,
    },
    Piece {
        from: Some(3000),
        count: 2,
        owner: Some((300, 7)),
        place: 3000,
    },
    Piece {
        from: None,
        count: 1,
        owner: Some((265, 3)),
        place: 9216,
    },
    Piece {
        from: Some(0),
        count: 200,
        owner: None,
        place: 9217,
    },
];

/// These pieces, in a list.
#[derive(Drop)]
struct Sample {
    items: [Piece; 5],
}

impl PieceList for Sample {
    ghost pieces = { λ s. s.items };

    fn len(&self) -> usize {
        self.items.len()
    }

    fn get(&self, i: usize) -> &Piece {
        &self.items[i]
    }
}

fn all_pieces() -> Sample
    ensures pieces { ArePieces result.items }
    ensures inside { All (λ p. p.place + p.count ≤ 12288) result.items }
{
    Sample { items: PIECES }
}

/// Nodes of trees 3, 5 and 2.
fn sample_nodes(alloc: Global) -> Result<NodeList, Memory>
    ensures { IfOk result AreNodes }
{
    let mut nodes = NodeList::new(alloc);
    let wanted: [(u64, u8, u64); 4] = [
        (34_603_008, 0, 3),
        (35_651_584, 0, 5),
        (35_667_968, 1, 2),
        (35_684_352, 0, 2),
    ];
    for (address, level, owner) in wanted {
        nodes.add(TreeNode {
            address,
            level,
            owner,
        })?;
    }
    Ok(nodes)
}

/// The bitmap of the volume.
fn sample_map(alloc: Global) -> Result<Bitmap, Memory> {
    let mut map = Bitmap::new(alloc, BLOCKS)?;
    for b in 0..8212 {
        if b < map.len() {
            map.insert(b);
        }
    }
    Ok(map)
}

/// The stream of the extent tree's items. Units 1 to 32 hold data, unit 33 is for the chunk tree, units 34 and 35 are for the
/// other trees and unit 36 is for copies.
fn sample_extents(
    alloc: Global,
    pieces: &Sample,
    nodes: &NodeList,
) -> Result<ExtentStream, PlanAnswer>
    requires pieces { ArePieces pieces.now.items }
    requires nodes { AreNodes nodes.now }
    ensures { IfOk result (λ s. FitsExtents s pieces.now.items nodes.now) }
{
    plans_fit();
    let map = sample_map(alloc)?;
    let blocks = map.len();
    if blocks > 1 << 29 {
        return Err(PlanAnswer::Memory);
    }
    let need = Need {
        system: 1,
        metadata: 2,
        data_: 1,
    };
    let plan = choose(alloc, &map, &need)?;
    Ok(extents(alloc, &plan, pieces, nodes, blocks, NODESIZE)?)
}

/// A checksum of items: of each the key, the length of the body, and the body.
#[derive(Clone, Copy)]
struct Sum {
    count: u64,
    sum: u32,
}

impl Sum {
    fn new() -> Sum {
        Sum {
            count: 0,
            sum: u32::MAX,
        }
    }

    fn add(&mut self, key: Key, body: &[u8]) {
        let length = body.len().min(u32::MAX as usize) as u32;
        self.count = self.count.wrapping_add(1);
        self.sum = raw_crc(self.sum, &key.to_bytes());
        self.sum = raw_crc(self.sum, &length.to_le_bytes());
        self.sum = raw_crc(self.sum, body);
    }

    fn all(self) -> (u64, u32) {
        (self.count, self.sum ^ u32::MAX)
    }
}

/// Goes over the extent tree's items.
fn sum_extents(stream: &mut ExtentStream, pieces: &Sample, nodes: &NodeList) -> (u64, u32)
    requires { FitsExtents stream.old pieces.now.items nodes.now }
    ensures { FitsExtents stream.new pieces.now.items nodes.now }
{
    let mut sum = Sum::new();
    for _ in 0..100 {
        if !stream.advance(pieces, nodes) {
            break;
        }
        sum.add(stream.key(), stream.body());
    }
    sum.all()
}

#[test]
fn extents_of_a_sample(rt: HostRuntime) -> Result<(), PlanAnswer> {
    let pieces = all_pieces();
    let nodes = sample_nodes(rt.alloc())?;
    let mut stream = sample_extents(rt.alloc(), &pieces, &nodes)?;
    assert_eq!(rt;
        sum_extents(&mut stream, &pieces, &nodes),
        (13, 1_492_904_071)
    );
    assert!(rt; !stream.advance(&pieces, &nodes));
    Ok(())
}

/// Fills a block of a disk with a number, if there is such a block.
fn fill_block(disk: &mut MemDisk, b: u64) -> Result<(), Memory>
    requires { length disk.old.history.start ≡ 12288 }
    ensures size { length disk.new.history.start ≡ 12288 }
    ensures opened { OnOk result (disk.new.opened ≡ disk.old.opened) }
{
    if b >= BLOCKS {
        return Ok(());
    }
    let mut block = Block::zero();
    block.bytes.fill((b % 251) as u8);
    disk.set_block(b, &block)
}

/// A disk whose blocks are zeros but for some.
fn sample_disk(alloc: Global) -> Result<MemDisk, Fail> {
    let mut disk = MemDisk::new(alloc, BLOCKS)?;
    for b in [256, 1255, 1256, 2155, 2156, 3001, 9216, 9300] {
        fill_block(&mut disk, b)?;
    }
    disk.open("", Access::Read)?;
    Ok(disk)
}

/// Goes over the checksum tree's items.
fn sum_sums(
    stream: &mut SumStream,
    disk: &mut MemDisk,
    pieces: &Sample,
) -> Result<(u64, u32), Fault>
    requires live { stream.old.spent ≡ false }
    requires fits { FitsSums stream.old pieces.now.items }
    requires size { 12288 ≤ ⟦<MemDisk as BlockSource>⟧.size disk.old }
    requires inside { All (λ p. p.place + p.count ≤ 12288) pieces.now.items }
{
    let mut sum = Sum::new();
    for _ in 0..100 {
        if !stream.advance(disk, pieces)? {
            break;
        }
        sum.add(stream.key(), stream.body());
    }
    Ok(sum.all())
}

#[test]
fn checksums_of_a_sample(rt: HostRuntime) -> Result<(), Fail> {
    let pieces = all_pieces();
    let mut disk = sample_disk(rt.alloc())?;
    assert_eq!(rt; disk.len(), BLOCKS);
    let mut stream = checksums(rt.alloc(), &pieces, SumKind::Crc32c)?;
    assert_eq!(rt;
        sum_sums(&mut stream, &mut disk, &pieces)?,
        (7, 891_564_161)
    );
    Ok(())
}
