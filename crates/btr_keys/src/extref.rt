ghost use Rattle.std.specs.Prelude.{◌≡◌, ◌<◌, ◌+◌, ◌≤◌, length, Some, slice_get};
ghost use Rattle.vol_block.specs.Volume.{field};
ghost use Rattle.btr_keys.specs.Extref.{extref_value, extref_bytes, extref_front, extrefs_of};

use crate::named::Records;
use std::marker::Model;
use vol_block::{Field, put_fields, u16_at, u64_at};

/// A name of an inode in any directory: a record of an extref, key (inode, 13, hash), as the Btrfs on-disk format
/// documentation has it. The hash is over the directory and the name.
#[derive(Clone, Copy, Debug)]
pub struct Extref<'a> {
    /// The directory's inode.
    pub parent: u64,
    /// The index of the name in the directory.
    pub index: u64,
    /// The name, of at most 65,535 bytes.
    pub name: &'a [u8],
}

impl<'a> Extref<'a> {
    /// Writes the record into a slice of 18 bytes and its name.
    #[tactic(auto, unfolding(crate::specs::Extref::extref_head))]
    pub fn write(&self, into: &mut [u8])
        requires name { length self.now.name.now < 65536 }
        requires room { length into.old ≡ 18 + length self.now.name.now }
        ensures { into.new ≡ extref_bytes (extref_value self.now) }
    {
        put_fields(
            into,
            &[
                Field::U64(self.parent),
                Field::U64(self.index),
                Field::U16(self.name.len() as u16),
                Field::Bytes(self.name),
            ],
        );
    }

    #[tactic(auto, unfolding(crate::specs::Extref::extref_head))]
    fn front(bytes: &'a [u8]) -> Extref<'a>
        requires head { 18 ≤ length bytes.now }
        requires name { 18 + field 2 bytes.now 16 ≤ length bytes.now }
        ensures { extref_value result ≡ extref_front bytes.now }
    {
        let end = 18 + u16_at(bytes, 16) as usize;
        Extref {
            parent: u64_at(bytes, 0),
            index: u64_at(bytes, 8),
            name: &bytes[18..end],
        }
    }
}

/// The names of an inode whose hashes are equal: the whole body of an extref.
#[derive(Debug, Drop)]
pub struct Extrefs<'a>(Records<'a, 18, 16>);

impl<'a> Model for Extrefs<'a> {
    ghost use Rattle.std.specs.Prelude.{List, map};
    ghost use Rattle.btr_keys.specs.Extref.{ExtrefValue, extref_front};

    ghost Value = { List ExtrefValue };

    ghost view = { λ v. map extref_front v.0 };
}

impl<'a> Extrefs<'a> {
    /// The names of a body; None exactly where it is not one or more whole records.
    pub fn read(body: &'a [u8]) -> Option<Extrefs<'a>>
        ensures { result ≡ extrefs_of body.now }
    {
        Some(Extrefs(Records::read(body)?))
    }

    /// How many names there are.
    pub fn len(&self) -> usize
        ensures { result ≡ length self.now }
    {
        self.0.len()
    }

    /// Name `i`, in the order of the body. It goes over the names before it.
    pub fn get(&self, i: usize) -> Extref<'a>
        requires { i < length self.now }
        ensures { slice_get self.now i ≡ Some (extref_value result) }
    {
        Extref::front(self.0.start(i))
    }
}
