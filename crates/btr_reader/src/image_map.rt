ghost use Rattle.btr_reader_walk.specs.Walks.{LieOn};
ghost use Rattle.btr_reader.specs.Ascending.{AscendApart};

use crate::mapped_extent::MappedExtent;
use btr_reader_walk::MapRange;

/// Where the blocks of a saved image lie on the device.
///
/// It keeps one piece for each extent that is no hole, in the order of the file, and the map of addresses. The pieces
/// ascend, and none overlaps another.
#[derive(Drop)]
pub struct ImageMap {
    /// How many blocks the image has.
    pub blocks: u64,
    /// How many blocks the device has.
    pub device: u64,
    pub pieces: Vec<MappedExtent>,
    pub ranges: Vec<MapRange>,
    ghost inside: { LieOn device ranges.items },
    ghost apart: { AscendApart pieces.items },
}
