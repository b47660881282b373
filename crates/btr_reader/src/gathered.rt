use crate::mapped_extent::MappedExtent;
use btr_reader_contents::Reach;

/// What is gathered of the extents of a file, one after the other.
#[derive(Drop)]
pub struct Gathered {
    pub reach: Reach,
    /// Whether one of them is inline.
    pub inline: bool,
    pub pieces: Vec<MappedExtent>,
}
