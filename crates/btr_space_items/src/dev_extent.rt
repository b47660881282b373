ghost use Rattle.std.specs.Prelude.{◌≡◌, length};
ghost use Rattle.btr_space_items.specs.DevExtent.{dev_extent_of, dev_extent_bytes};

use btr_keys::btrfs_format::size::DEV_EXTENT_SIZE;
use btr_keys::{Field, array_at, put_fields, u64_at};

/// The body of a device extent, key (device, 204, physical address in bytes): 48 bytes, as the Btrfs on-disk format
/// documentation has it.
#[derive(Clone, Copy, Debug, PartialEq, Eq)]
pub struct DevExtent {
    /// The number of the chunk tree: 3.
    pub chunk_tree: u64,
    /// The objectid of the chunk: 256.
    pub chunk_objectid: u64,
    /// The logical address of the chunk in bytes.
    pub chunk_offset: u64,
    /// How many bytes of the device belong to the chunk.
    pub length: u64,
    /// The chunk tree's identifier.
    pub chunk_tree_uuid: [u8; 16],
}

impl DevExtent {
    /// The bytes of a value.
    pub const SIZE: usize = DEV_EXTENT_SIZE;

    /// The value that is the whole body; None exactly where the body has another length than 48 bytes.
    #[tactic(auto, unfolding(crate::specs::DevExtent::dev_extent_layout))]
    pub fn read(body: &[u8]) -> Option<DevExtent>
        ensures { result ≡ dev_extent_of body.now }
    {
        if body.len() != DevExtent::SIZE {
            return None;
        }
        Some(DevExtent {
            chunk_tree: u64_at(body, 0),
            chunk_objectid: u64_at(body, 8),
            chunk_offset: u64_at(body, 16),
            length: u64_at(body, 24),
            chunk_tree_uuid: array_at(body, 32),
        })
    }

    /// Writes the value into the 48 bytes of a slice.
    #[tactic(auto, unfolding(crate::specs::DevExtent::dev_extent_layout))]
    pub fn write(&self, into: &mut [u8])
        requires { length into.old ≡ 48 }
        ensures { into.new ≡ dev_extent_bytes self.now }
    {
        put_fields(
            into,
            &[
                Field::U64(self.chunk_tree),
                Field::U64(self.chunk_objectid),
                Field::U64(self.chunk_offset),
                Field::U64(self.length),
                Field::Bytes(&self.chunk_tree_uuid),
            ],
        );
    }

    /// The 48 bytes of the value.
    pub fn to_bytes(&self) -> [u8; 48]
        ensures { result ≡ dev_extent_bytes self.now }
    {
        let mut bytes = [0; 48];
        self.write(&mut bytes);
        bytes
    }
}
