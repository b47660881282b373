//! Bodies of the items of a ReiserFS tree: stat data, pointers and directory entries; and the order of items by key.
//!
//! A caller takes an item's head and body from a leaf, and reads the body by the head's kind: [`StatData::read`],
//! [`Pointers::read`] or [`Entries::read`]. Each is None exactly where the body is off its form. The body of a direct
//! item is bytes, and needs no reading. Names are borrowed from the body; nothing here allocates or fails otherwise.
#![tactic(auto)]

mod entries;
mod order;
mod pointers;
mod stat;

pub use entries::{Entries, Entry};
pub use order::key_order;
pub use pointers::Pointers;
pub use reiser_node::{
    Block, BlockNo, Field, InnerView, ItemHead, ItemKind, LeafView, put_fields, put_u32,
    reiserfs_format, u16_at, u32_at, vol_block,
};
pub use stat::StatData;
