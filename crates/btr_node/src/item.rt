ghost use Rattle.std.specs.Prelude.{◌≡◌, ◌≤◌, ◌+◌, length, drop};
ghost use Rattle.btr_node.specs.Leaf.{item_layout};

use btr_keys::Key;
use btr_keys::btrfs_format::size::ITEM_SIZE;
use refusals::u32_at;

/// The head of a leaf's item, 25 bytes, as the Btrfs on-disk format documentation has it.
#[derive(Clone, Copy, Debug, PartialEq, Eq)]
pub struct BtrItemHead {
    /// The item's key.
    pub key: Key,
    /// Where its data begins, in bytes from the end of the node's head.
    pub offset: u32,
    /// How many bytes of data it has.
    pub size: u32,
}

impl BtrItemHead {
    /// The bytes of an item's head.
    pub const SIZE: usize = ITEM_SIZE;

    /// The head in the 25 bytes from byte `at` on.
    pub fn at(bytes: &[u8], at: usize) -> BtrItemHead
        requires { at + ITEM_SIZE ≤ length bytes.now }
        ensures { result ≡ item_layout.read (drop at bytes.now) }
    {
        BtrItemHead::first(&bytes[at..])
    }

    fn first(bytes: &[u8]) -> BtrItemHead
        requires { ITEM_SIZE ≤ length bytes.now }
        ensures { result ≡ item_layout.read bytes.now }
    {
        BtrItemHead {
            key: Key::at(bytes, 0),
            offset: u32_at(bytes, 17),
            size: u32_at(bytes, 21),
        }
    }
}
