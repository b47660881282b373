use btr_tree::{Ids, SumKind};

/// What the nodes of a new volume share.
#[derive(Clone, Copy, Debug, PartialEq, Eq)]
pub struct NodeForm {
    /// The volume's identifiers; nodes have those of the file system and of the chunk tree.
    pub ids: Ids,
    /// The size of a node in bytes: 4096, 8192, 16384, 32768 or 65536.
    pub nodesize: u32,
    /// The kind of checksum.
    pub sums: SumKind,
}
