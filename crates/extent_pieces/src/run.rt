use reiser_bitmap::BlockNo;

/// Neighbouring blocks of the volume that hold neighbouring blocks of one file.
#[derive(Clone, Copy, Debug, PartialEq, Eq)]
pub struct OwnedRun {
    /// The first block of the volume.
    pub first: BlockNo,
    /// How many blocks there are.
    pub count: u64,
    /// The inode number of the file.
    pub inode: u64,
    /// The block of the file that the first one holds.
    pub at: u64,
}
