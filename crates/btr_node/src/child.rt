ghost use Rattle.std.specs.Prelude.{◌≡◌, ◌≤◌, ◌+◌, length, drop};
ghost use Rattle.btr_node.specs.Inner.{child_layout};

use btr_keys::Key;
use btr_keys::btrfs_format::size::KEY_PTR_SIZE;
use refusals::u64_at;

/// A child of an inner node, 33 bytes, as the Btrfs on-disk format documentation has it.
#[derive(Clone, Copy, Debug, PartialEq, Eq)]
pub struct Child {
    /// The first key of the child.
    pub key: Key,
    /// The child's address, in bytes.
    pub address: u64,
    /// The transaction that wrote the child.
    pub generation: u64,
}

impl Child {
    /// The bytes of a child in its parent.
    pub const SIZE: usize = KEY_PTR_SIZE;

    /// The child in the 33 bytes from byte `at` on.
    pub fn at(bytes: &[u8], at: usize) -> Child
        requires { at + KEY_PTR_SIZE ≤ length bytes.now }
        ensures { result ≡ child_layout.read (drop at bytes.now) }
    {
        Child::first(&bytes[at..])
    }

    fn first(bytes: &[u8]) -> Child
        requires { KEY_PTR_SIZE ≤ length bytes.now }
        ensures { result ≡ child_layout.read bytes.now }
    {
        Child {
            key: Key::at(bytes, 0),
            address: u64_at(bytes, 17),
            generation: u64_at(bytes, 25),
        }
    }
}
