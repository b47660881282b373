use csum_kinds::SumKind;

/// What the parent of a node says of it, or the superblock or a root item of a tree's root.
#[derive(Clone, Copy, Debug, PartialEq, Eq)]
pub struct Expect {
    /// The node's address, in bytes.
    pub address: u64,
    /// The file system's identifier.
    pub fsid: [u8; 16],
    /// The number of the tree that the node belongs to.
    pub owner: u64,
    /// 0 for a leaf, and one more than its children's level for an inner node.
    pub level: u8,
    /// The transaction that wrote the node.
    pub generation: u64,
    /// The kind of checksum.
    pub sums: SumKind,
}
