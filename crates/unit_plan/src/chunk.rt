use reiser_bitmap::{BlockNo, CopyList};

/// What a unit, and so a chunk, is used for.
#[derive(Clone, Copy, Debug, PartialEq, Eq)]
pub enum Role {
    /// The chunk tree.
    System,
    /// All other trees.
    Metadata,
    /// The data of files and of the saved image.
    Data,
}

/// A range of blocks that are used for the same. It begins with a unit.
#[derive(Clone, Copy, Debug, PartialEq, Eq)]
pub struct PlannedChunk {
    /// Its first block, a multiple of 256.
    pub start: BlockNo,
    /// How many blocks it has.
    pub length: u64,
    /// What they are used for.
    pub role: Role,
}

/// The chunks of a volume, as a list.
pub type Chunks = CopyList<PlannedChunk>;
