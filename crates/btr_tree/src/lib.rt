//! The trees that are written, and how many nodes they take.
//!
//! A [`TreeBuilder`] is given [`NodeSlots`] for nodes, takes the items of a tree in the order of their keys by
//! [`TreeBuilder::push`], which writes nodes on the way, and writes the rest by [`TreeBuilder::finish`], whose answer is the
//! [`Root`]. Between two calls others may write blocks that are in no slot that was taken ([`stands_by_slots`]). A
//! [`Counter`] takes the lengths of a tree's items and says how many nodes the tree has. [`node_bound`] bounds that number
//! by the sum of the items' bytes alone.
#![tactic(auto)]

mod answer;
mod bound;
mod builder;
mod climb;
mod counter;
mod laws;
mod levels;
mod nodes;
mod parents;
mod slots;
mod write;

pub use answer::TreeAnswer;
pub use bound::node_bound;
pub use btr_node::{
    Access, Block, BlockSource, CopyList, DirEntry, Disk, Extref, Fault, Ids, Inode, InodeRef, Key,
    Memory, SumKind, VolAnswer, VolumeRefusal, btrfs_format, data_ref_hash, kind_sum, kind_width,
    name_hash, vol_block,
};
pub use builder::TreeBuilder;
pub use climb::Root;
pub use counter::Counter;
pub use laws::{
    maps_agree, nodes_have_linux_form, nodes_never_fall, packing_is_full, stands_by_slots,
};
pub use slots::{NodeSlots, Slots};
