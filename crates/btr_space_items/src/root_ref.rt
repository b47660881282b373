ghost use Rattle.std.specs.Prelude.{◌≡◌, ◌<◌, ◌+◌, ◌≤◌, length, drop};
ghost use Rattle.std.specs.Option.{option_map};
ghost use Rattle.btr_keys.specs.vol_block.Volume.{field};
ghost use Rattle.btr_space_items.specs.RootRef.{root_ref_head, root_ref_value, root_ref_of, root_ref_bytes};

use btr_keys::btrfs_format::size::ROOT_REF_SIZE;
use btr_keys::{Field, put_fields, u16_at, u64_at};

/// Where a tree stands in a directory of another: the body of a root ref, key (parent tree, 156, tree), and of a root
/// backref, key (tree, 144, parent tree), as the Btrfs on-disk format documentation has it.
#[derive(Clone, Copy, Debug)]
pub struct RootRef<'a> {
    /// The directory's inode in the parent tree.
    pub dirid: u64,
    /// The index of the name in the directory.
    pub sequence: u64,
    /// The name, of at most 65,535 bytes.
    pub name: &'a [u8],
}

impl<'a> RootRef<'a> {
    /// The root ref that is the whole body. None exactly where the body has another length than 18 bytes and those of its
    /// name.
    pub fn read(body: &'a [u8]) -> Option<RootRef<'a>>
        ensures { option_map root_ref_value result ≡ root_ref_of body.now }
    {
        if body.len() < 18 {
            return None;
        }
        let name_length = u16_at(body, 16) as usize;
        if body.len() == ROOT_REF_SIZE + name_length {
            Some(RootRef::first(body))
        } else {
            None
        }
    }

    #[tactic(auto, unfolding(crate::specs::RootRef::root_ref_head))]
    fn first(body: &'a [u8]) -> RootRef<'a>
        requires head { 18 ≤ length body.now }
        requires name { length body.now ≡ 18 + field 2 body.now 16 }
        ensures { root_ref_value result ≡ root_ref_head.read body.now (drop 18 body.now) }
    {
        let end = ROOT_REF_SIZE + u16_at(body, 16) as usize;
        RootRef {
            dirid: u64_at(body, 0),
            sequence: u64_at(body, 8),
            name: &body[18..end],
        }
    }

    /// Writes the root ref into a slice of 18 bytes and its name.
    #[tactic(auto, unfolding(crate::specs::RootRef::root_ref_head))]
    pub fn write(&self, into: &mut [u8])
        requires name { length self.now.name.now < 65536 }
        requires room { length into.old ≡ ROOT_REF_SIZE + length self.now.name.now }
        ensures { into.new ≡ root_ref_bytes (root_ref_value self.now) }
    {
        put_fields(
            into,
            &[
                Field::U64(self.dirid),
                Field::U64(self.sequence),
                Field::U16(self.name.len() as u16),
                Field::Bytes(self.name),
            ],
        );
    }
}
