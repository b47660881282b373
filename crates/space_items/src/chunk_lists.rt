ghost use Rattle.std.specs.Prelude.{◌≡◌, ◌≤◌, ◌<◌, ◌+◌, ◌*◌, ◌^◌, ◌++◌, ◌∷◌, [], List, IfOk, OnOk};
ghost use Rattle.std.specs.List.{sum_by};
ghost use Rattle.unit_plan.specs.Chunks.{AreChunks, FitsVolume};
ghost use Rattle.unit_plan.specs.declared.chunk.PlannedChunk.{PlannedChunk as PlannedChunkOf};
ghost use Rattle.space_items.specs.Chunks.{chunk_kind, chunk_body, chunk_item, chunk_items, device_body, dev_extent_item, device_items};

use btr_item_list::{ItemList, key_of};
use btr_space_items::btrfs_format::flag::{
    BLOCK_GROUP_DATA, BLOCK_GROUP_METADATA, BLOCK_GROUP_SYSTEM,
};
use btr_space_items::btrfs_format::key::{CHUNK_ITEM, DEV_EXTENT, DEV_ITEM};
use btr_space_items::btrfs_format::object::{
    CHUNK_TREE, DEV_ITEMS_OBJECTID, EXTENT_TREE, FIRST_CHUNK_TREE_OBJECTID,
};
use btr_space_items::{Chunk as ChunkBody, DevExtent, Device, Stripe};
use btr_tree::{Ids, Memory};
use std::alloc::Global;
use unit_plan::{Chunks, Plan, PlannedChunk, Role, chunks_of};

/// The number of a chunk's use.
pub fn chunk_kind(role: Role) -> u64
    ensures { result ≡ chunk_kind role }
{
    match role {
        Role::Data => BLOCK_GROUP_DATA,
        Role::System => BLOCK_GROUP_SYSTEM,
        Role::Metadata => BLOCK_GROUP_METADATA,
    }
}

/// The body of a chunk's item: one stripe, on device 1, at the place that is its address.
pub fn chunk_body(ids: &Ids, chunk: PlannedChunk) -> ChunkBody
    requires { chunk.start + chunk.length ≤ 2 ^ 29 }
    ensures { result ≡ chunk_body ids.now chunk }
{
    let PlannedChunk {
        start,
        length,
        role,
    } = chunk;
    ChunkBody {
        length: 4096 * length,
        owner: EXTENT_TREE,
        stripe_len: 65536,
        kind: chunk_kind(role),
        io_align: 4096,
        io_width: 4096,
        sector_size: 4096,
        num_stripes: 1,
        sub_stripes: 0,
        stripe: Stripe {
            devid: 1,
            offset: 4096 * start,
            device_uuid: ids.device,
        },
    }
}

/// The body of the device's item, for a volume of so many blocks.
pub fn device_body(ids: &Ids, blocks: u64, chunks: &Chunks) -> Device
    requires blocks { blocks ≤ 2 ^ 29 }
    requires chunks { sum_by (λ c. c.length) chunks.now ≤ 2 ^ 29 }
    ensures { result ≡ device_body ids.now blocks chunks.now }
{
    Device {
        devid: 1,
        total_bytes: 4096 * blocks,
        bytes_used: 4096 * chunk_blocks(chunks),
        io_align: 4096,
        io_width: 4096,
        sector_size: 4096,
        kind: 0,
        generation: 0,
        start_offset: 0,
        dev_group: 0,
        seek_speed: 0,
        bandwidth: 0,
        uuid: ids.device,
        fsid: ids.fsid,
    }
}

/// The blocks of all chunks.
fn chunk_blocks(chunks: &Chunks) -> u64
    requires { sum_by (λ c. c.length) chunks.now ≤ 2 ^ 29 }
    ensures { result ≡ sum_by (λ c. c.length) chunks.now }
{
    let mut blocks = 0;
    for i in 0..chunks.len() {
        blocks += chunks.get(i).length;
    }
    blocks
}

/// The items of the chunk tree: the device, and the chunks that the plan makes of a volume of so many blocks.
pub fn chunks(alloc: Global, plan: &Plan, blocks: u64, ids: &Ids) -> Result<ItemList, Memory>
    requires small { blocks ≤ 2 ^ 29 }
    requires units { FitsVolume plan.now blocks }
    ensures { (list : List PlannedChunkOf) → AreChunks plan.now blocks list → IfOk result (λ items. items ≡ chunk_items ids.now blocks list) }
{
    let chunks = chunks_of(alloc, plan, blocks)?;
    let mut items = ItemList::new(alloc);
    let mut body = [0; Device::SIZE];
    device_body(ids, blocks, &chunks).write(&mut body);
    items.add(key_of(DEV_ITEMS_OBJECTID, DEV_ITEM, 1), &body)?;
    for i in 0..chunks.len() {
        add_chunk(&mut items, ids, chunks.get(i))?;
    }
    Ok(items)
}

/// Appends a chunk's item.
fn add_chunk(items: &mut ItemList, ids: &Ids, chunk: PlannedChunk) -> Result<(), Memory>
    requires { chunk.start + chunk.length ≤ 2 ^ 29 }
    ensures { OnOk result (items.new ≡ items.old ++ chunk_item ids.now chunk ∷ []) }
{
    let mut body = [0; ChunkBody::SIZE];
    chunk_body(ids, chunk).write(&mut body);
    items.add(
        key_of(FIRST_CHUNK_TREE_OBJECTID, CHUNK_ITEM, 4096 * chunk.start),
        &body,
    )
}

/// The items of the device tree: what each chunk takes of the device.
pub fn devices(alloc: Global, plan: &Plan, blocks: u64, ids: &Ids) -> Result<ItemList, Memory>
    requires small { blocks ≤ 2 ^ 29 }
    requires units { FitsVolume plan.now blocks }
    ensures { (list : List PlannedChunkOf) → AreChunks plan.now blocks list → IfOk result (λ items. items ≡ device_items ids.now list) }
{
    let chunks = chunks_of(alloc, plan, blocks)?;
    let mut items = ItemList::new(alloc);
    for i in 0..chunks.len() {
        add_dev_extent(&mut items, ids, chunks.get(i))?;
    }
    Ok(items)
}

/// Appends what a chunk takes of the device.
fn add_dev_extent(items: &mut ItemList, ids: &Ids, chunk: PlannedChunk) -> Result<(), Memory>
    requires { chunk.start + chunk.length ≤ 2 ^ 29 }
    ensures { OnOk result (items.new ≡ items.old ++ dev_extent_item ids.now chunk ∷ []) }
{
    let extent = DevExtent {
        chunk_tree: CHUNK_TREE,
        chunk_objectid: FIRST_CHUNK_TREE_OBJECTID,
        chunk_offset: 4096 * chunk.start,
        length: 4096 * chunk.length,
        chunk_tree_uuid: ids.chunk_tree,
    };
    let mut body = [0; DevExtent::SIZE];
    extent.write(&mut body);
    items.add(key_of(1, DEV_EXTENT, 4096 * chunk.start), &body)
}
