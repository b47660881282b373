use crate::bodies::{chunk, device, key};
use crate::sample::{BLOCKS, CHUNK_LEAF, FSID, NODE, ROOT_LEAF, SYSTEM, Sample};
use btr_super::{Super, csum_type};
use btrfs_format::block::SUPER_INFO_OFFSET;
use btrfs_format::feature::{
    EXTENDED_IREF, METADATA_UUID, MIXED_BACKREF, NO_HOLES, SKINNY_METADATA,
};
use btrfs_format::flag::{BLOCK_GROUP_SYSTEM, HEADER_FLAG_WRITTEN};
use btrfs_format::key::CHUNK_ITEM;
use btrfs_format::object::{FIRST_CHUNK_TREE_OBJECTID, ROOT_TREE_DIR_OBJECTID};
use btrfs_format::size::{KEY_SIZE, SYSTEM_CHUNK_ARRAY_SIZE, SYSTEM_CHUNK_SIZE};
use vol_block::Block;

/// The block of the superblock.
pub fn superblock(sample: &Sample) -> Block {
    let sup = Super {
        fsid: sample.known_as.unwrap_or(FSID),
        bytenr: SUPER_INFO_OFFSET,
        flags: HEADER_FLAG_WRITTEN,
        generation: 1,
        root: ROOT_LEAF,
        chunk_root: CHUNK_LEAF,
        log_root: sample.log_root,
        log_root_transid: 0,
        total_bytes: BLOCKS * 4096,
        // Linux takes no superblock that has less than six nodes.
        bytes_used: 6 * 16384,
        root_dir_objectid: ROOT_TREE_DIR_OBJECTID,
        num_devices: 1,
        sectorsize: 4096,
        nodesize: NODE,
        leafsize: NODE,
        stripesize: 4096,
        sys_chunk_array_size: SYSTEM_CHUNK_SIZE as u32,
        chunk_root_generation: 1,
        compat: 0,
        compat_ro: 0,
        incompat: features(sample),
        csum_type: csum_type(sample.sums),
        root_level: 0,
        chunk_root_level: 0,
        log_root_level: 0,
        dev_item: device(),
        label: sample.label,
        cache_generation: 0,
        uuid_tree_generation: 0,
        metadata_uuid: kept_id(sample),
        sys_chunk_array: bootstrap(),
        backup_roots: [0; 672],
    };
    let mut block = Block::zero();
    sup.encode(&mut block);
    block
}

/// The identifier that the nodes keep where the volume is known by another.
fn kept_id(sample: &Sample) -> [u8; 16] {
    match sample.known_as {
        Some(_) => FSID,
        None => [0; 16],
    }
}

/// The features: a volume that is known by another identifier than its nodes have says so.
fn features(sample: &Sample) -> u64 {
    let features = MIXED_BACKREF | EXTENDED_IREF | SKINNY_METADATA | NO_HOLES;
    match sample.known_as {
        Some(_) => features | METADATA_UUID,
        None => features,
    }
}

/// The bootstrap array: the key and the body of the system chunk.
fn bootstrap() -> [u8; SYSTEM_CHUNK_ARRAY_SIZE] {
    let mut array = [0; SYSTEM_CHUNK_ARRAY_SIZE];
    array[..KEY_SIZE].copy_from_slice(&key(
        FIRST_CHUNK_TREE_OBJECTID,
        CHUNK_ITEM,
        SYSTEM,
    ).to_bytes());
    array[KEY_SIZE..SYSTEM_CHUNK_SIZE].copy_from_slice(&chunk(SYSTEM, BLOCK_GROUP_SYSTEM));
    array
}
