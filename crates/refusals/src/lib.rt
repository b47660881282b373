//! Why a volume is refused, and why a call on a volume gave nothing: the errors of both formats.
//!
//! They stand apart from the model of the device, so that a further refusal changes nothing there.
#![tactic(auto)]

mod answer;
mod refusal;
mod rule;

pub use answer::{BtrAnswer, VolAnswer};
pub use outside::{
    Access, Block, BlockNo, BlockSource, Cached, CopyList, Disk, Fault, Field, Format, Ids, Memory,
    Room, Sink, array_at, format_of, has_magic, has_reiser_magic, is_reserved, put_fields, put_u64,
    u16_at, u32_at, u64_at, usable_end, vol_block,
};
pub use refusal::{BtrRefusal, VolumeRefusal};
pub use rule::{BtrRule, Feature, Rule};
