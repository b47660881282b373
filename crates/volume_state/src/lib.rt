//! The states of a volume that has the one before in it: its saved image as a disk and as a source of blocks of its own,
//! which blocks of the device are in use, and when the volume before can be had back.
//!
//! An [`ImageSource`] reads the blocks of the image where its map sends them, so whatever reads a ReiserFS volume reads
//! the old one in a Btrfs volume. [`read_way`] finds where those blocks lie, and notes by the way whether the Btrfs volume
//! uses a reserved block. [`image_moved`] and [`reserved_used`] say what stands in the way of going back: a block of the
//! old volume that now lies elsewhere, and a reserved block that is in use.
#![tactic(auto)]

mod extents;
mod laws;
mod moved;
mod nodes;
mod reserved;
mod source;
mod using;

pub use laws::spare_blocks_decide_nothing;
pub use moved::image_moved;
pub use source::ImageSource;
pub use using::{Reserved, Way, read_way, reserved_used};
