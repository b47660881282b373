ghost use Rattle.std.specs.Prelude.{◌≡◌, ◌<◌, ◌≤◌, ◌^◌, ◌++◌, replicate, length};
ghost use Rattle.btr_space_items.specs.btr_keys.Layout.{spelling};
ghost use Rattle.btr_space_items.specs.Device.{device_bytes};
ghost use Rattle.btr_super.specs.Super.{super_layout, super_in, super_bytes, mirror_bytes, node_fsid};

use crate::sums::seal;
use btr_space_items::Device;
use btr_space_items::btrfs_format::block::MAGIC;
use btr_space_items::btrfs_format::feature::METADATA_UUID;
use refusals::{Block, BlockNo, Field, array_at, put_fields, put_u64, u16_at, u32_at, u64_at};

/// The superblock of a Btrfs volume: block 16 and the copies of it, as the Btrfs on-disk format documentation has it.
#[derive(Clone, Copy, Debug, PartialEq, Eq)]
pub struct Super {
    /// The file system's identifier.
    pub fsid: [u8; 16],
    /// The address of this superblock in bytes.
    pub bytenr: u64,
    /// 1 for a volume that was written whole.
    pub flags: u64,
    /// The transaction that wrote the superblock.
    pub generation: u64,
    /// The logical address of the root tree's root node in bytes.
    pub root: u64,
    /// The logical address of the chunk tree's root node in bytes.
    pub chunk_root: u64,
    /// The logical address of the log tree's root node in bytes; 0 where there is none.
    pub log_root: u64,
    /// Not used; 0.
    pub log_root_transid: u64,
    /// The length of the volume in bytes.
    pub total_bytes: u64,
    /// Bytes of all extents and nodes.
    pub bytes_used: u64,
    /// The object of the root directory in the root tree: 6.
    pub root_dir_objectid: u64,
    /// The number of devices.
    pub num_devices: u64,
    /// The size of a sector in bytes.
    pub sectorsize: u32,
    /// The size of a node in bytes.
    pub nodesize: u32,
    /// The size of a node again.
    pub leafsize: u32,
    /// The size of a stripe in bytes; not used.
    pub stripesize: u32,
    /// How many bytes of the bootstrap array are used.
    pub sys_chunk_array_size: u32,
    /// The transaction that wrote the chunk tree's root node.
    pub chunk_root_generation: u64,
    /// Bits of features that any reader may meet.
    pub compat: u64,
    /// Bits of features that a writer must know.
    pub compat_ro: u64,
    /// Bits of features that a reader must know.
    pub incompat: u64,
    /// The kind of checksums: 0 for CRC-32C.
    pub csum_type: u16,
    /// The level of the root tree's root node.
    pub root_level: u8,
    /// The level of the chunk tree's root node.
    pub chunk_root_level: u8,
    /// The level of the log tree's root node.
    pub log_root_level: u8,
    /// The device, as the chunk tree has it.
    pub dev_item: Device,
    /// The label, up to its first zero byte.
    pub label: [u8; 256],
    /// The transaction of the old free space cache.
    pub cache_generation: u64,
    /// The transaction of the tree of identifiers.
    pub uuid_tree_generation: u64,
    /// With the feature METADATA_UUID the identifier that the nodes have; else not used.
    pub metadata_uuid: [u8; 16],
    /// The bootstrap array: keys and bodies of the system chunks, one after the other.
    pub sys_chunk_array: [u8; 2048],
    /// Four older sets of roots.
    pub backup_roots: [u8; 672],
}

impl Super {
    /// The superblock that a block is, whatever its rules say.
    pub(crate) fn first(bytes: &[u8]) -> Super
        requires { 4096 ≤ length bytes.now }
        ensures { result ≡ super_in bytes.now }
    {
        Super {
            fsid: array_at(bytes, 32),
            bytenr: u64_at(bytes, 48),
            flags: u64_at(bytes, 56),
            generation: u64_at(bytes, 72),
            root: u64_at(bytes, 80),
            chunk_root: u64_at(bytes, 88),
            log_root: u64_at(bytes, 96),
            log_root_transid: u64_at(bytes, 104),
            total_bytes: u64_at(bytes, 112),
            bytes_used: u64_at(bytes, 120),
            root_dir_objectid: u64_at(bytes, 128),
            num_devices: u64_at(bytes, 136),
            sectorsize: u32_at(bytes, 144),
            nodesize: u32_at(bytes, 148),
            leafsize: u32_at(bytes, 152),
            stripesize: u32_at(bytes, 156),
            sys_chunk_array_size: u32_at(bytes, 160),
            chunk_root_generation: u64_at(bytes, 164),
            compat: u64_at(bytes, 172),
            compat_ro: u64_at(bytes, 180),
            incompat: u64_at(bytes, 188),
            csum_type: u16_at(bytes, 196),
            root_level: bytes[198],
            chunk_root_level: bytes[199],
            log_root_level: bytes[200],
            dev_item: Device::at(bytes, 201),
            label: array_at(bytes, 299),
            cache_generation: u64_at(bytes, 555),
            uuid_tree_generation: u64_at(bytes, 563),
            metadata_uuid: array_at(bytes, 571),
            sys_chunk_array: array_at(bytes, 811),
            backup_roots: array_at(bytes, 2859),
        }
    }

    /// The identifier that the nodes of the volume have: the file system's, or where that was changed later the one that
    /// the volume was made with.
    pub fn node_fsid(&self) -> [u8; 16]
        ensures { result ≡ node_fsid self.now }
    {
        if self.incompat & METADATA_UUID == 0 {
            self.fsid
        } else {
            self.metadata_uuid
        }
    }

    /// Writes the superblock into a block, with its checksum. Bytes that belong to no field become zeros. Where the kind
    /// of checksum is not known, the place of the checksum does too.
    pub fn encode(&self, into: &mut Block)
        ensures { into.new.bytes ≡ super_bytes self.now }
    {
        let device = self.dev_item.to_bytes();
        self.put(&device, &mut into.bytes);
        seal(into);
    }

    #[tactic(auto, unfolding(crate::specs::Super::super_layout))]
    fn put<'a>(&'a self, device: &'a [u8; 98], into: &mut [u8])
        requires device { device.now ≡ device_bytes self.now.dev_item }
        requires room { length into.old ≡ 4096 }
        ensures { into.new ≡ replicate 32 0 ++ spelling super_layout self.now }
    {
        put_fields(
            into,
            &[
                Field::Zeros(32),
                Field::Bytes(&self.fsid),
                Field::U64(self.bytenr),
                Field::U64(self.flags),
                Field::Bytes(MAGIC),
                Field::U64(self.generation),
                Field::U64(self.root),
                Field::U64(self.chunk_root),
                Field::U64(self.log_root),
                Field::U64(self.log_root_transid),
                Field::U64(self.total_bytes),
                Field::U64(self.bytes_used),
                Field::U64(self.root_dir_objectid),
                Field::U64(self.num_devices),
                Field::U32(self.sectorsize),
                Field::U32(self.nodesize),
                Field::U32(self.leafsize),
                Field::U32(self.stripesize),
                Field::U32(self.sys_chunk_array_size),
                Field::U64(self.chunk_root_generation),
                Field::U64(self.compat),
                Field::U64(self.compat_ro),
                Field::U64(self.incompat),
                Field::U16(self.csum_type),
                Field::U8(self.root_level),
                Field::U8(self.chunk_root_level),
                Field::U8(self.log_root_level),
                Field::Bytes(device),
                Field::Bytes(&self.label),
                Field::U64(self.cache_generation),
                Field::U64(self.uuid_tree_generation),
                Field::Bytes(&self.metadata_uuid),
                Field::Zeros(224),
                Field::Bytes(&self.sys_chunk_array),
                Field::Bytes(&self.backup_roots),
                Field::Zeros(565),
            ],
        );
    }
}

/// The superblock of a block as it is written at another place: with its address and its checksum, and nothing else
/// changed.
pub fn mirror(block: &Block, place: BlockNo, into: &mut Block)
    requires { place < 2 ^ 52 }
    ensures { into.new.bytes ≡ mirror_bytes place block.now.bytes }
{
    *into = *block;
    put_u64(&mut into.bytes, 48, 4096 * place);
    seal(into);
}
