ghost use Rattle.std.specs.Prelude.{◌≡◌, length};
ghost use Rattle.free_space.specs.Info.{free_info_bytes, free_info_of};

use btr_node::btr_keys::{Field, put_fields, u32_at};

/// The body of a block group's item in the free space tree, key (logical address, 198, length), both in bytes: 8 bytes,
/// `struct btrfs_free_space_info` of Linux.
#[derive(Clone, Copy, Debug, PartialEq, Eq)]
pub struct FreeInfo {
    /// How many runs of free blocks the group has.
    pub count: u32,
    /// 0 where an item tells of each run, 1 where bitmaps tell of them.
    pub flags: u32,
}

impl FreeInfo {
    /// The bytes of a value.
    pub const SIZE: usize = 8;

    /// The value that is the whole body; None exactly where the body has another length than 8 bytes.
    #[tactic(auto, unfolding(crate::specs::Info::free_info_layout))]
    pub fn read(body: &[u8]) -> Option<FreeInfo>
        ensures { result ≡ free_info_of body.now }
    {
        if body.len() != FreeInfo::SIZE {
            return None;
        }
        Some(FreeInfo {
            count: u32_at(body, 0),
            flags: u32_at(body, 4),
        })
    }

    /// Writes the value into the 8 bytes of a slice.
    #[tactic(auto, unfolding(crate::specs::Info::free_info_layout))]
    pub fn write(&self, into: &mut [u8])
        requires { length into.old ≡ 8 }
        ensures { into.new ≡ free_info_bytes self.now }
    {
        put_fields(into, &[Field::U32(self.count), Field::U32(self.flags)]);
    }

    /// The 8 bytes of the value.
    pub fn to_bytes(&self) -> [u8; 8]
        ensures { result ≡ free_info_bytes self.now }
    {
        let mut bytes = [0; 8];
        self.write(&mut bytes);
        bytes
    }
}
