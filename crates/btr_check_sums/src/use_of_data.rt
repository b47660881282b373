// File extents with a place on the disk, as far as checksums go.
use btr_check_rules::btr_reader::btr_reader_walk::DiskRange;
use number_runs::{Gathered, Run, Runs};

/// A file extent with a place on the disk.
#[derive(Clone, Copy, Debug)]
pub struct DataOf {
    /// Its disk extent, and what of that the file has.
    pub range: DiskRange,
    /// The kind of compression; 0 for none.
    pub compression: u8,
    /// Whether its bytes were written, or only laid out.
    pub written: bool,
    /// Whether it is read: in a tree that a balance of data uses it is not.
    pub is_read: bool,
    /// Whether data of its inode has checksums. None where there is no inode.
    pub sums: Option<bool>,
}

/// Blocks that were only laid out, and where their disk extent begins, in bytes.
#[derive(Clone, Copy, Debug)]
pub struct LaidOut {
    pub extent: u64,
    pub blocks: Run,
}

/// What file extents use, as it is gathered: sets of blocks by their numbers.
#[derive(Drop)]
pub struct Uses {
    /// The blocks of all disk extents.
    pub data: Gathered,
    /// Blocks that are read, and need checksums.
    pub wanted: Gathered,
    /// Blocks that are read, and may have none.
    pub bare: Gathered,
    /// Where disk extents begin to which something was written, in bytes.
    pub written: Gathered,
    /// What is laid out.
    pub laid: Vec<LaidOut>,
}

/// The blocks of data by how they stand to checksums, by their numbers.
#[derive(Drop)]
pub struct UsedBlocks {
    /// The blocks of all disk extents.
    pub data: Runs,
    /// Blocks that need checksums.
    pub wanted: Runs,
    /// Blocks that may have none.
    pub bare: Runs,
}
