use reiser_items::BlockNo;

/// A block that is reached, and the node that names it.
#[derive(Clone, Copy, Debug, PartialEq, Eq)]
pub struct BlockPointer {
    /// The block. It may lie past the end of the volume.
    pub block: BlockNo,
    /// The block of the node that holds the pointer; block 16, the superblock, for the root.
    pub holder: BlockNo,
}
