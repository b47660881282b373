ghost use Rattle.std.specs.Prelude.{◌≡◌, ◌+◌, ◌≤◌, ◌↔◌, length, IsTrue};
ghost use Rattle.btr_keys.specs.Key.{key_in_bytes, key_of, key_bytes, IsBefore};

use crate::body::exactly;
use vol_block::btrfs_format::size::KEY_SIZE;
use vol_block::{Field, put_fields, u64_at};

/// The key of an item in a Btrfs tree: 17 bytes, as the Btrfs on-disk format documentation has it.
///
/// Items of a tree ascend by their keys. Keys are ordered by objectid, then by kind, then by offset.
#[derive(Clone, Copy, Debug, PartialEq, Eq, PartialOrd, Ord)]
pub struct Key {
    /// What the item belongs to, as an inode's number or an address in bytes.
    pub objectid: u64,
    /// The kind of item, as 1 for an inode.
    pub kind: u8,
    /// What tells items of one object and kind apart, as an offset in a file in bytes.
    pub offset: u64,
}

impl Key {
    /// The bytes of a key.
    pub const SIZE: usize = KEY_SIZE;

    /// The key in the 17 bytes from byte `at` on.
    #[tactic(auto, unfolding(crate::specs::Key::key_layout))]
    pub fn at(bytes: &[u8], at: usize) -> Key
        requires { at + 17 ≤ length bytes.now }
        ensures { result ≡ key_in_bytes bytes.now at }
    {
        Key {
            objectid: u64_at(bytes, at),
            kind: bytes[at + 8],
            offset: u64_at(bytes, at + 9),
        }
    }

    /// The key that is the whole body; None exactly where the body has another length than 17 bytes.
    pub fn read(body: &[u8]) -> Option<Key>
        ensures { result ≡ key_of body.now }
    {
        Some(Key::at(exactly(body, Key::SIZE)?, 0))
    }

    /// Writes the key into the 17 bytes of a slice.
    #[tactic(auto, unfolding(crate::specs::Key::key_layout))]
    pub fn write(&self, into: &mut [u8])
        requires { length into.old ≡ 17 }
        ensures { into.new ≡ key_bytes self.now }
    {
        put_fields(
            into,
            &[
                Field::U64(self.objectid),
                Field::U8(self.kind),
                Field::U64(self.offset),
            ],
        );
    }

    /// The 17 bytes of the key.
    pub fn to_bytes(&self) -> [u8; 17]
        ensures { result ≡ key_bytes self.now }
    {
        let mut bytes = [0; 17];
        self.write(&mut bytes);
        bytes
    }

    /// Whether this key stands before another: by objectid, then by kind, then by offset.
    pub fn is_before(&self, other: &Key) -> bool
        ensures { IsTrue result ↔ IsBefore self.now other.now }
    {
        self < other
    }
}
