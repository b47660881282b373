use btr_tree_writer::NodeForm;
use reiser_volume::Volume;
use std::alloc::Global;
use unit_plan::convert_options::Options;
use unit_plan::{PieceList, Plan};

/// What the trees are made from.
#[derive(Drop)]
pub struct Writing<'a, P: PieceList> {
    pub alloc: Global,
    pub volume: &'a Volume,
    pub pieces: &'a P,
    pub plan: &'a Plan,
    pub options: &'a Options,
    /// The identifiers, and the options' size of a node and kind of checksum.
    pub form: NodeForm,
    /// The time of the conversion, in seconds since the start of 1970, below 2^63.
    pub time: u64,
}
