//! What a sound Btrfs volume asks of single fields: of the superblock, of nodes and root items, and of chunks, device
//! extents, block groups and the totals over these. Each rule of `btr_check_rules` is decided both ways.
#![tactic(auto)]

mod all;
mod chunks;
mod device_tree;
mod devices;
mod extents;
mod found;
mod group_items;
mod groups;
mod node_rules;
mod overlap;
mod root_items;
mod stripes;
mod supers;
mod totals;

pub use chunks::wrong_chunk;
pub use device_tree::wrong_device_extent;
pub use devices::DevicesFound;
pub use found::{ChunkUse, ExtentAt, GroupAt};
pub use group_items::GroupsFound;
pub use groups::wrong_group;
pub use node_rules::{is_relocated, keeps_node};
pub use root_items::{holds_files, is_root_item};
pub use supers::keeps_super;
pub use totals::totals_hold;
