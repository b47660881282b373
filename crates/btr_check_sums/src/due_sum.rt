// Checksums that are to be compared.
use crate::place_run::PlaceRun;
use btr_check_rules::btr_reader::btr_reader_walk::SumKind;

/// A checksum that is told of a block, and is to be compared with it.
#[derive(Clone, Copy, Debug)]
pub struct DueSum {
    /// The block of the device.
    pub block: u64,
    /// Its address, in bytes.
    pub address: u64,
    /// What is told, and zeros where that is shorter.
    pub sum: [u8; 32],
}

/// Checksums of the checksum tree, as they are met: those that are still to be compared, and where addresses lie.
#[derive(Drop)]
pub struct DataPass {
    pub kind: SumKind,
    /// At most [`WINDOW`] of them.
    pub due: Vec<DueSum>,
    /// The addresses in which the last one was found.
    pub hand: Option<PlaceRun>,
}
