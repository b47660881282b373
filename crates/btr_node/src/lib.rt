//! Nodes of Btrfs trees: views of a leaf's items and of an inner node's children, and a writer of either.
//!
//! A caller says by an [`Expect`] what a parent says of a node, and reads the node's bytes with [`LeafView::read`] or
//! [`InnerView::read`], whose answer is a rule that the node breaks. A [`NodeWriter`] is started for a node, takes
//! items or children while [`NodeWriter::room`] allows it, and gives the node's bytes with [`NodeWriter::finish`]; a
//! view reads them back. Only [`NodeWriter::new`] takes memory.
#![tactic(auto)]

mod areas;
mod buffer;
mod child;
mod expect;
mod head;
mod inner;
mod item;
mod laws;
mod leaf;
mod order;
mod put;
mod sum;
mod writer;

pub use btr_keys;
pub use btr_keys::{
    DirEntry, DirItems, DiskRange, ExtentContent, Extref, FileExtent, Inode, InodeRef, Key, Stamp,
    btrfs_format,
};
pub use child::Child;
pub use csum_kinds::{SumKind, data_ref_hash, kind_sum, kind_width, name_hash};
pub use expect::Expect;
pub use head::Head;
pub use inner::InnerView;
pub use item::BtrItemHead;
pub use laws::{
    damages_tell, inner_nodes_read_back, joined_ascend, leaves_read_back, parts_ascend,
};
pub use leaf::LeafView;
pub use refusals::{
    Access, Block, BlockNo, BlockSource, BtrAnswer, BtrRefusal, BtrRule, CopyList, Disk, Fault,
    Feature, Ids, Memory, VolAnswer, VolumeRefusal, u16_at, vol_block,
};
pub use writer::{Full, NodeWriter};
