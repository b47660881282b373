ghost use Rattle.std.specs.Prelude.{◌≡◌, ◌≤◌, length};
ghost use Rattle.btr_keys.specs.Layout.{spelling};
ghost use Rattle.btr_node.specs.Head.{head_layout, head_in, behind_head, expected, has_head};

use crate::expect::Expect;
use btr_keys::btrfs_format::size::{CSUM_SIZE, HEADER_REST_SIZE, HEADER_SIZE};
use csum_kinds::SumKind;
use refusals::{Field, put_fields, u32_at, u64_at};

/// The head of a node behind its checksum, 69 bytes, as the Btrfs on-disk format documentation has it.
#[derive(Clone, Copy, Debug, PartialEq, Eq)]
pub struct Head {
    /// The file system's identifier.
    pub fsid: [u8; 16],
    /// The node's address, in bytes.
    pub address: u64,
    /// Bit 0 of the first byte means that the node was written.
    pub flags: [u8; 7],
    /// 1 where references to nodes are those of today's format.
    pub revision: u8,
    /// The identifier of the chunk tree.
    pub chunk_tree: [u8; 16],
    /// The transaction that wrote the node.
    pub generation: u64,
    /// The number of the tree that the node belongs to.
    pub owner: u64,
    /// How many items or children the node has.
    pub count: u32,
    /// 0 for a leaf, and one more than its children's level for an inner node.
    pub level: u8,
}

impl Head {
    /// The head of the node with these bytes.
    pub fn of(bytes: &[u8]) -> Head
        requires { HEADER_SIZE ≤ length bytes.now }
        ensures { result ≡ head_in bytes.now }
    {
        Head::first(&bytes[CSUM_SIZE..])
    }

    fn first(bytes: &[u8]) -> Head
        requires { HEADER_REST_SIZE ≤ length bytes.now }
        ensures { result ≡ head_layout.read bytes.now }
    {
        let mut fsid = [0; 16];
        fsid.copy_from_slice(&bytes[..16]);
        let mut flags = [0; 7];
        flags.copy_from_slice(&bytes[24..31]);
        let mut chunk_tree = [0; 16];
        chunk_tree.copy_from_slice(&bytes[32..48]);
        Head {
            fsid,
            address: u64_at(bytes, 16),
            flags,
            revision: bytes[31],
            chunk_tree,
            generation: u64_at(bytes, 48),
            owner: u64_at(bytes, 56),
            count: u32_at(bytes, 64),
            level: bytes[68],
        }
    }

    /// Writes the head into 69 bytes.
    #[tactic(auto, unfolding(crate::specs::Head::head_layout))]
    pub fn write(&self, into: &mut [u8])
        requires { length into.old ≡ HEADER_REST_SIZE }
        ensures { into.new ≡ spelling head_layout self.now }
    {
        put_fields(
            into,
            &[
                Field::Bytes(&self.fsid),
                Field::U64(self.address),
                Field::Bytes(&self.flags),
                Field::U8(self.revision),
                Field::Bytes(&self.chunk_tree),
                Field::U64(self.generation),
                Field::U64(self.owner),
                Field::U32(self.count),
                Field::U8(self.level),
            ],
        );
    }

    /// What a parent would say of the node.
    pub fn expected(&self, sums: SumKind) -> Expect
        ensures { result ≡ expected sums self.now }
    {
        Expect {
            address: self.address,
            fsid: self.fsid,
            owner: self.owner,
            level: self.level,
            generation: self.generation,
            sums,
        }
    }
}

/// Whether the head of a node says what its parent says.
pub fn has_head(bytes: &[u8], want: &Expect) -> bool
    requires { HEADER_SIZE ≤ length bytes.now }
    ensures { result ≡ has_head want.now bytes.now }
{
    Head::of(bytes).expected(want.sums) == *want
}

/// What stands behind the head of a node.
pub fn behind_head(bytes: &[u8]) -> &[u8]
    requires { HEADER_SIZE ≤ length bytes.now }
    ensures { result.now ≡ behind_head bytes.now }
{
    &bytes[HEADER_SIZE..]
}
