ghost use Rattle.std.specs.Prelude.{◌≡◌, length};
ghost use Rattle.btr_space_items.specs.ExtentHead.{extent_head_of, extent_head_bytes};

use btr_keys::btrfs_format::size::EXTENT_ITEM_SIZE;
use btr_keys::{Field, put_fields, u64_at};

/// The first 24 bytes of an extent, key (logical address, 168, length), or of a metadata extent, key (logical address,
/// 169, level), as the Btrfs on-disk format documentation has it. References stand behind it.
#[derive(Clone, Copy, Debug, PartialEq, Eq)]
pub struct ExtentHead {
    /// How many references there are to the extent.
    pub refs: u64,
    /// The transaction that made it.
    pub generation: u64,
    /// What it holds: 1 data, 2 a node.
    pub flags: u64,
}

impl ExtentHead {
    /// The bytes of a value.
    pub const SIZE: usize = EXTENT_ITEM_SIZE;

    /// What a body begins with; None exactly where the body has fewer than 24 bytes.
    #[tactic(auto, unfolding(crate::specs::ExtentHead::extent_head_layout))]
    pub fn read(body: &[u8]) -> Option<ExtentHead>
        ensures { result ≡ extent_head_of body.now }
    {
        if body.len() < ExtentHead::SIZE {
            return None;
        }
        Some(ExtentHead {
            refs: u64_at(body, 0),
            generation: u64_at(body, 8),
            flags: u64_at(body, 16),
        })
    }

    /// Writes the value into the 24 bytes of a slice.
    #[tactic(auto, unfolding(crate::specs::ExtentHead::extent_head_layout))]
    pub fn write(&self, into: &mut [u8])
        requires { length into.old ≡ 24 }
        ensures { into.new ≡ extent_head_bytes self.now }
    {
        put_fields(
            into,
            &[
                Field::U64(self.refs),
                Field::U64(self.generation),
                Field::U64(self.flags),
            ],
        );
    }

    /// The 24 bytes of the value.
    pub fn to_bytes(&self) -> [u8; 24]
        ensures { result ≡ extent_head_bytes self.now }
    {
        let mut bytes = [0; 24];
        self.write(&mut bytes);
        bytes
    }
}
