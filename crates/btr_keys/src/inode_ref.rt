ghost use Rattle.std.specs.Prelude.{◌≡◌, ◌<◌, ◌+◌, ◌≤◌, length, Some, slice_get};
ghost use Rattle.vol_block.specs.Volume.{field};
ghost use Rattle.btr_keys.specs.InodeRef.{inode_ref_value, inode_ref_bytes, inode_ref_front, inode_refs_of};

use crate::named::Records;
use std::marker::Model;
use vol_block::{Field, put_fields, u16_at, u64_at};

/// A name of an inode in a directory: a record of an inode ref, key (inode, 12, directory), as the Btrfs on-disk
/// format documentation has it.
#[derive(Clone, Copy, Debug)]
pub struct InodeRef<'a> {
    /// The index of the name in the directory.
    pub index: u64,
    /// The name, of at most 65,535 bytes.
    pub name: &'a [u8],
}

impl<'a> InodeRef<'a> {
    /// Writes the record into a slice of 10 bytes and its name.
    #[tactic(auto, unfolding(crate::specs::InodeRef::inode_ref_head))]
    pub fn write(&self, into: &mut [u8])
        requires name { length self.now.name.now < 65536 }
        requires room { length into.old ≡ 10 + length self.now.name.now }
        ensures { into.new ≡ inode_ref_bytes (inode_ref_value self.now) }
    {
        put_fields(
            into,
            &[
                Field::U64(self.index),
                Field::U16(self.name.len() as u16),
                Field::Bytes(self.name),
            ],
        );
    }

    #[tactic(auto, unfolding(crate::specs::InodeRef::inode_ref_head))]
    fn front(bytes: &'a [u8]) -> InodeRef<'a>
        requires head { 10 ≤ length bytes.now }
        requires name { 10 + field 2 bytes.now 8 ≤ length bytes.now }
        ensures { inode_ref_value result ≡ inode_ref_front bytes.now }
    {
        let end = 10 + u16_at(bytes, 8) as usize;
        InodeRef {
            index: u64_at(bytes, 0),
            name: &bytes[10..end],
        }
    }
}

/// The names that an inode has in one directory: the whole body of an inode ref.
#[derive(Debug, Drop)]
pub struct InodeRefs<'a>(Records<'a, 10, 8>);

impl<'a> Model for InodeRefs<'a> {
    ghost use Rattle.std.specs.Prelude.{List, map};
    ghost use Rattle.btr_keys.specs.InodeRef.{InodeRefValue, inode_ref_front};

    ghost Value = { List InodeRefValue };

    ghost view = { λ v. map inode_ref_front v.0 };
}

impl<'a> InodeRefs<'a> {
    /// The names of a body; None exactly where it is not one or more whole records.
    pub fn read(body: &'a [u8]) -> Option<InodeRefs<'a>>
        ensures { result ≡ inode_refs_of body.now }
    {
        Some(InodeRefs(Records::read(body)?))
    }

    /// How many names there are.
    pub fn len(&self) -> usize
        ensures { result ≡ length self.now }
    {
        self.0.len()
    }

    /// Name `i`, in the order of the body. It goes over the names before it.
    pub fn get(&self, i: usize) -> InodeRef<'a>
        requires { i < length self.now }
        ensures { slice_get self.now i ≡ Some (inode_ref_value result) }
    {
        InodeRef::front(self.0.start(i))
    }
}
