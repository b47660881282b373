//! Item bodies of the trees that keep a Btrfs volume's space: roots of trees, extents and their references, block groups,
//! chunks and devices.
//!
//! A caller reads a body with the type's `read`, which is None exactly where the body is off the form of its item, and
//! writes a value with `write` into a slice of the body's length. Names are borrowed from the body. Nothing here
//! allocates or fails otherwise.
#![tactic(auto)]

mod block_group;
mod chunk;
mod dev_extent;
mod device;
mod extent_body;
mod extent_head;
mod inline_ref;
mod laws;
mod root_item;
mod root_ref;
mod stripe;

pub use block_group::BlockGroup;
pub use btr_keys::btrfs_format;
pub use chunk::Chunk;
pub use dev_extent::DevExtent;
pub use device::Device;
pub use extent_body::{extent_body_size, write_extent_body};
pub use extent_head::ExtentHead;
pub use inline_ref::{INLINE_SHARED_DATA_REF_SIZE, InlineRef, InlineRefs};
pub use laws::{
    block_groups_read_back, chunks_read_back, dev_extents_read_back, devices_read_back,
    extent_heads_read_back, inline_refs_read_back, root_items_read_back, root_refs_read_back,
    stripes_read_back,
};
pub use root_item::RootItem;
pub use root_ref::RootRef;
pub use stripe::Stripe;
