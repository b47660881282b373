//! The objects of a ReiserFS volume: what the items of its tree say of each, and which of them the root reaches.
#![tactic(auto)]

mod check;
mod key;
mod kinds;
mod laws;
mod leaves;
mod naming;
mod node;
mod object;
mod reach;
mod read;
mod stat;
mod table;

pub use fs_paths::fs_rows;
pub use key::ObjectKey;
pub use kinds::kind_of_mode;
pub use laws::refusals_break_rules;
pub use leaves::LeafList;
pub use naming::Naming;
pub use node::{key_at, node_of};
pub use object::Object;
pub use reach::{ROOT, is_followed};
pub use reiser_bitmap::{BlockSource, Memory, Rule, VolAnswer, VolumeRefusal};
pub use reiser_items::{Block, BlockNo, ItemHead, LeafView};
pub use stat::ObjectStat;
pub use table::Objects;
