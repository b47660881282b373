//! What the checker of a Btrfs volume keeps while it counts references to extents, in little memory: the references with their
//! counts, the nodes that were met, and those that are full. Nothing here reads a disk.
#![tactic(auto)]

mod full_list;
mod full_nodes;
mod gather;
mod made;
mod node_map;
mod node_state;
mod node_table;

pub use btr_check_rules;
pub use full_list::{FullNodes, FullNodesFound};
pub use gather::{MadeCount, References};
pub use made::Made;
pub use node_state::NodeState;
pub use node_table::NodeMap;
