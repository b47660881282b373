//! Why a command was not done.
#![tactic(auto)]

mod answer;

pub use answer::Answer;
pub use refusals::{
    Access, Block, BlockNo, BlockSource, BtrRefusal, BtrRule, Disk, Fault, Feature, Ids, Memory,
    Rule, Sink, VolAnswer, VolumeRefusal,
};
