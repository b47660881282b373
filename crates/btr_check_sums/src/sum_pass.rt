// The checksum tree, as it is walked.
use btr_check_rules::btr_reader::btr_reader_walk::SumKind;
use number_runs::Gathered;

/// What is known of the items of the checksum tree that were met.
#[derive(Drop)]
pub struct SumPass {
    pub nodesize: u32,
    pub kind: SumKind,
    /// Where the last item ends, in bytes.
    pub end: u128,
    /// The blocks that have a checksum, by their numbers.
    pub covered: Gathered,
}
