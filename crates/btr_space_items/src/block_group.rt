ghost use Rattle.std.specs.Prelude.{◌≡◌, length};
ghost use Rattle.btr_space_items.specs.BlockGroup.{block_group_of, block_group_bytes};

use btr_keys::btrfs_format::size::BLOCK_GROUP_ITEM_SIZE;
use btr_keys::{Field, put_fields, u64_at};

/// The body of a block group, key (logical address, 192, length), both in bytes: 24 bytes, as the Btrfs on-disk format
/// documentation has it.
#[derive(Clone, Copy, Debug, PartialEq, Eq)]
pub struct BlockGroup {
    /// Bytes of extents and nodes in the group.
    pub used: u64,
    /// The objectid of the group's chunk: 256.
    pub chunk_objectid: u64,
    /// What the group holds: 1 data, 2 system, 4 metadata.
    pub flags: u64,
}

impl BlockGroup {
    /// The bytes of a value.
    pub const SIZE: usize = BLOCK_GROUP_ITEM_SIZE;

    /// The value that is the whole body; None exactly where the body has another length than 24 bytes.
    #[tactic(auto, unfolding(crate::specs::BlockGroup::block_group_layout))]
    pub fn read(body: &[u8]) -> Option<BlockGroup>
        ensures { result ≡ block_group_of body.now }
    {
        if body.len() != BlockGroup::SIZE {
            return None;
        }
        Some(BlockGroup {
            used: u64_at(body, 0),
            chunk_objectid: u64_at(body, 8),
            flags: u64_at(body, 16),
        })
    }

    /// Writes the value into the 24 bytes of a slice.
    #[tactic(auto, unfolding(crate::specs::BlockGroup::block_group_layout))]
    pub fn write(&self, into: &mut [u8])
        requires { length into.old ≡ 24 }
        ensures { into.new ≡ block_group_bytes self.now }
    {
        put_fields(
            into,
            &[
                Field::U64(self.used),
                Field::U64(self.chunk_objectid),
                Field::U64(self.flags),
            ],
        );
    }

    /// The 24 bytes of the value.
    pub fn to_bytes(&self) -> [u8; 24]
        ensures { result ≡ block_group_bytes self.now }
    {
        let mut bytes = [0; 24];
        self.write(&mut bytes);
        bytes
    }
}
