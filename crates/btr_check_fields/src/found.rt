use btr_check_rules::btr_reader::ChunkAt;
use btr_check_rules::btr_reader::btr_space_items::{BlockGroup, DevExtent};

/// A chunk, and how many bytes of its addresses extents use.
#[derive(Clone, Copy, Debug, PartialEq, Eq)]
pub struct ChunkUse {
    pub chunk: ChunkAt,
    /// In bytes.
    pub used: u64,
}

/// A block group, with the numbers of its key.
#[derive(Clone, Copy, Debug, PartialEq, Eq)]
pub struct GroupAt {
    /// Its address in bytes.
    pub start: u64,
    /// How many bytes it has.
    pub length: u64,
    pub group: BlockGroup,
}

/// A device extent, with the numbers of its key.
#[derive(Clone, Copy, Debug, PartialEq, Eq)]
pub struct ExtentAt {
    /// The number of its device.
    pub devid: u64,
    /// Where it begins on the device, in bytes.
    pub offset: u64,
    pub extent: DevExtent,
}
