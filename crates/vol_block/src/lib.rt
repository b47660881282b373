//! Blocks of a volume, little-endian fields in their bytes, the magic numbers of both formats, and the blocks that
//! stay reserved.
//!
//! A caller reads a [`Block`], asks [`format_of`] which file system it begins, and takes fields by [`u32_at`] and
//! its like. Nothing here allocates or fails.
#![tactic(auto)]

mod block;
mod field;
mod fields;
mod format;
mod ids;
mod mode;

pub use block::{Block, BlockNo, is_reserved, usable_end};
pub use btrfs_format;
pub use field::{Field, array_at, put_fields};
pub use fields::{put_u16, put_u32, put_u64, u16_at, u32_at, u64_at};
pub use format::{Format, format_of, has_magic, has_reiser_magic};
pub use ids::Ids;
pub use mode::{
    DIRECTORY_MODE, DT_BLK, DT_CHR, DT_DIR, DT_FIFO, DT_LNK, DT_REG, DT_SOCK, IMAGE_MODE, S_IFDIR,
    S_IFREG,
};
