// The items of small lists. Each checksum is that of the same items as an independent program writes them.
ghost use Rattle.std.specs.Prelude.{◌<◌, ◌*◌, ◌^◌, All, AllPairs, IfOk};

use btr_item_list::ItemList;
use btr_keys::Key;
use btr_space_items::{Chunk, Device, RootItem};
use btr_tree::Root;
use castagnoli::raw_crc;
use outside::Memory;
use reiser_bitmap::Bitmap;
use space_items::{RootList, TreeRoot, chunks, devices, roots};
use std::alloc::Global;
use unit_plan::{Need, PlanAnswer, choose, plans_fit};
use vol_block::Ids;

const IDS: Ids = Ids {
    fsid: [0x22; 16],
    device: [0x33; 16],
    chunk_tree: [0x44; 16],
    subvolume: [0x55; 16],
};

/// The blocks of the sample volume. Those below 8212 are in use.
const BLOCKS: u64 = 12288;

/// The bitmap of the sample volume.
fn sample(alloc: Global) -> Result<Bitmap, Memory> {
    let mut map = Bitmap::new(alloc, BLOCKS)?;
    for b in 0..8212 {
        if b < map.len() {
            map.insert(b);
        }
    }
    Ok(map)
}

/// The items of the chunk tree and of the device tree. Units 1 to 32 hold data, unit 33 is for the chunk tree, units 34 and
/// 35 are for the other trees and unit 36 is for copies. The units behind have no use.
fn space_lists(alloc: Global) -> Result<(ItemList, ItemList), PlanAnswer> {
    plans_fit();
    let map = sample(alloc)?;
    let blocks = map.len();
    if blocks > 1 << 29 {
        return Err(PlanAnswer::Memory);
    }
    let need = Need {
        system: 1,
        metadata: 2,
        data_: 1,
    };
    let plan = choose(alloc, &map, &need)?;
    let chunk_tree = chunks(alloc, &plan, blocks, &IDS)?;
    let device_tree = devices(alloc, &plan, blocks, &IDS)?;
    Ok((chunk_tree, device_tree))
}

/// The checksum of all items: of each the key, the length of the body, and the body.
fn sum(items: &ItemList) -> u32 {
    let mut sum = u32::MAX;
    for i in 0..items.len() {
        sum = raw_crc(sum, &items.key(i).to_bytes());
        let body = items.body(i);
        let length = body.len().min(u32::MAX as usize) as u32;
        sum = raw_crc(sum, &length.to_le_bytes());
        sum = raw_crc(sum, body);
    }
    sum ^ u32::MAX
}

/// The key and the body of item `i`, if there are so many.
fn item(items: &ItemList, i: usize) -> Option<(Key, &[u8])> {
    if i < items.len() {
        Some((items.key(i), items.body(i)))
    } else {
        None
    }
}

/// The key of item `i`, and the blocks and the used blocks of the device that it tells of.
fn device_at(items: &ItemList, i: usize) -> Option<(Key, u64, u64)> {
    let (key, body) = item(items, i)?;
    let device = Device::read(body)?;
    Some((key, device.total_bytes, device.bytes_used))
}

/// The key of item `i`, and the length and the kind of the chunk that it tells of.
fn chunk_at(items: &ItemList, i: usize) -> Option<(Key, u64, u64)> {
    let (key, body) = item(items, i)?;
    let chunk = Chunk::read(body)?;
    Some((key, chunk.length, chunk.kind))
}

fn key(objectid: u64, kind: u8, offset: u64) -> Key {
    Key {
        objectid,
        kind,
        offset,
    }
}

/// The chunks, by the numbers of their items: start, length and kind.
const CHUNKS: [(usize, u64, u64, u64); 4] = [
    (1, 1_048_576, 33_554_432, 1),
    (2, 34_603_008, 1_048_576, 2),
    (3, 35_651_584, 2_097_152, 4),
    (4, 37_748_736, 1_048_576, 1),
];

#[test]
fn chunks_of_a_sample(rt: HostRuntime) -> Result<(), PlanAnswer> {
    let (chunk_tree, device_tree) = space_lists(rt.alloc())?;
    let device = (key(1, 216, 1), 50_331_648, 37_748_736);
    assert!(rt; device_at(&chunk_tree, 0) == Some(device));
    for (i, start, length, kind) in &CHUNKS {
        let wanted = (key(256, 228, *start), *length, *kind);
        assert!(rt; chunk_at(&chunk_tree, *i) == Some(wanted));
    }
    assert!(rt; [chunk_tree.len(), device_tree.len()] == [5, 4]);
    assert!(rt; [sum(&chunk_tree), sum(&device_tree)] == [3_545_149_433, 1_706_817_448]);
    Ok(())
}

/// The roots of a small volume.
fn sample_roots(alloc: Global) -> Result<RootList, Memory>
    ensures few { IfOk result (All (λ r. 16384 * r.root.nodes < 2 ^ 64)) }
    ensures order { IfOk result (AllPairs (λ r s. r.tree < s.tree)) }
{
    let mut list = RootList::new(alloc);
    let wanted: [(u64, u64, u8, u64); 6] = [
        (2, 35_799_040, 1, 3),
        (4, 35_700_736, 0, 1),
        (5, 35_651_584, 0, 1),
        (7, 35_684_352, 0, 1),
        (256, 35_667_968, 0, 1),
        (u64::MAX - 8, 35_782_656, 0, 1),
    ];
    for (tree, address, level, nodes) in wanted {
        list.add(TreeRoot {
            tree,
            root: Root {
                address,
                level,
                nodes,
            },
        })?;
    }
    Ok(list)
}

/// The key of item `i`, and the directory, the address and the used bytes of the root that it tells of.
fn root_at(items: &ItemList, i: usize) -> Option<(Key, [u64; 3])> {
    let (key, body) = item(items, i)?;
    let root = RootItem::read(body)?;
    Some((key, [root.root_dirid, root.bytenr, root.bytes_used]))
}

#[test]
fn roots_of_a_sample(rt: HostRuntime) -> Result<(), Memory> {
    let list = sample_roots(rt.alloc())?;
    let items = roots(rt.alloc(), &list, 7, &IDS, 1_700_000_000, 16384)?;
    let root = (key(256, 132, 0), [256, 35_667_968, 16384]);
    assert!(rt; root_at(&items, 8) == Some(root));
    assert!(rt; (items.len(), sum(&items)) == (11, 1_760_973_775));
    Ok(())
}
