ghost use Rattle.std.specs.Prelude.{◌≡◌, ◌<◌, ◌+◌, ◌≤◌, length, Some, slice_get};
ghost use Rattle.vol_block.specs.Volume.{field};
ghost use Rattle.btr_keys.specs.DirEntry.{dir_entry_value, dir_entry_bytes, dir_entry_front, dir_items_of};

use crate::key::Key;
use crate::named::Records;
use std::marker::Model;
use vol_block::{Field, put_fields, u16_at, u64_at};

/// An entry of a directory: a record of a dir item, key (directory, 84, hash of the name), or of a dir index, key
/// (directory, 96, index), as the Btrfs on-disk format documentation has it.
#[derive(Clone, Copy, Debug)]
pub struct DirEntry<'a> {
    /// The key of what the entry names: of an inode, or of the root of another tree.
    pub location: Key,
    /// The transaction that made the entry.
    pub transid: u64,
    /// The bytes of the data of an extended attribute; 0 in a directory. The record ends with its name whatever stands
    /// here.
    pub data_length: u16,
    /// The kind of what the entry names: 1 file, 2 directory, 3 character device, 4 block device, 5 fifo, 6 socket,
    /// 7 symlink.
    pub kind: u8,
    /// The name, of at most 65,535 bytes.
    pub name: &'a [u8],
}

impl<'a> DirEntry<'a> {
    /// Writes the record into a slice of 30 bytes and its name.
    #[tactic(auto, unfolding(crate::specs::Key::key_layout, crate::specs::DirEntry::dir_entry_head))]
    pub fn write(&self, into: &mut [u8])
        requires name { length self.now.name.now < 65536 }
        requires room { length into.old ≡ 30 + length self.now.name.now }
        ensures { into.new ≡ dir_entry_bytes (dir_entry_value self.now) }
    {
        put_fields(
            into,
            &[
                Field::U64(self.location.objectid),
                Field::U8(self.location.kind),
                Field::U64(self.location.offset),
                Field::U64(self.transid),
                Field::U16(self.data_length),
                Field::U16(self.name.len() as u16),
                Field::U8(self.kind),
                Field::Bytes(self.name),
            ],
        );
    }

    #[tactic(auto, unfolding(crate::specs::Key::key_layout, crate::specs::DirEntry::dir_entry_head))]
    fn front(bytes: &'a [u8]) -> DirEntry<'a>
        requires head { 30 ≤ length bytes.now }
        requires name { 30 + field 2 bytes.now 27 ≤ length bytes.now }
        ensures { dir_entry_value result ≡ dir_entry_front bytes.now }
    {
        let end = 30 + u16_at(bytes, 27) as usize;
        DirEntry {
            location: Key::at(bytes, 0),
            transid: u64_at(bytes, 17),
            data_length: u16_at(bytes, 25),
            kind: bytes[29],
            name: &bytes[30..end],
        }
    }
}

/// The entries of a directory whose names have one hash: the whole body of a dir item. A dir index has one.
#[derive(Debug, Drop)]
pub struct DirItems<'a>(Records<'a, 30, 27>);

impl<'a> Model for DirItems<'a> {
    ghost use Rattle.std.specs.Prelude.{List, map};
    ghost use Rattle.btr_keys.specs.DirEntry.{DirEntryValue, dir_entry_front};

    ghost Value = { List DirEntryValue };

    ghost view = { λ v. map dir_entry_front v.0 };
}

impl<'a> DirItems<'a> {
    /// The entries of a body; None exactly where it is not one or more whole records.
    pub fn read(body: &'a [u8]) -> Option<DirItems<'a>>
        ensures { result ≡ dir_items_of body.now }
    {
        Some(DirItems(Records::read(body)?))
    }

    /// How many entries there are.
    pub fn len(&self) -> usize
        ensures { result ≡ length self.now }
    {
        self.0.len()
    }

    /// Entry `i`, in the order of the body. It goes over the entries before it.
    pub fn get(&self, i: usize) -> DirEntry<'a>
        requires { i < length self.now }
        ensures { slice_get self.now i ≡ Some (dir_entry_value result) }
    {
        DirEntry::front(self.0.start(i))
    }
}
