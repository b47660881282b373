//! What the passes of a check of a Btrfs volume share: the parts of what a sound volume is, as an answer tells them,
//! and the walk over the items of a tree, which may share nodes with other trees.
#![tactic(auto)]

mod last_key;
mod open_node;
mod parts;
mod refused;
mod visitor;
mod walk;

pub use btr_check_rules;
pub use command_answers::Answer;
pub use parts::SoundPart;
pub use refused::tree_answer;
pub use visitor::ItemVisitor;
pub use walk::each_item;
