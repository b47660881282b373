use reiser_bitmap::{Block, BlockNo};

/// A block of the old volume, as its image has it.
#[derive(Clone, Copy, Debug)]
pub struct Saved {
    /// Its number.
    pub at: BlockNo,
    pub block: Block,
}

/// What a rollback did.
#[derive(Clone, Copy, Debug, PartialEq, Eq)]
pub struct RollbackSummary {
    /// The blocks that the old volume uses.
    pub blocks: u64,
    /// How many of them are reserved, so that they were written from its image.
    pub restored: u64,
}

/// What is to be written to have the old volume back. All of it is in memory.
#[derive(Drop)]
pub struct WayBack {
    /// The reserved blocks that the old volume uses, ascending, but for block 16.
    pub reserved: Vec<Saved>,
    /// Its block 16.
    pub superblock: Block,
    /// The block of the disk that holds block 16 of the image.
    pub copy: BlockNo,
    /// Whether the block of the first copy of a Btrfs superblock, at 64 MiB, is to become zeros.
    pub first: bool,
    /// The same of the second copy, at 256 GiB.
    pub second: bool,
    pub summary: RollbackSummary,
}
