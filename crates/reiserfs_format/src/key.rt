//! Objects and kinds of items, from Linux's fs/reiserfs/reiserfs.h.

/// The directory of the root directory: `REISERFS_ROOT_PARENT_OBJECTID`.
pub const ROOT_PARENT_OBJECTID: u32 = 1;

/// The root directory: `REISERFS_ROOT_OBJECTID`.
pub const ROOT_OBJECTID: u32 = 2;

/// The directory of save links, which no object has: `MAX_KEY_OBJECTID`.
pub const MAX_KEY_OBJECTID: u32 = 0xFFFF_FFFF;

/// The version of an item of format 3.5.
pub const KEY_FORMAT_3_5: u16 = 0;

/// The version of an item of format 3.6.
pub const KEY_FORMAT_3_6: u16 = 1;

/// The kind of stat data, in the high four bits of an offset.
pub const TYPE_STAT_DATA: u64 = 0;

/// The kind of pointers to blocks.
pub const TYPE_INDIRECT: u64 = 1;

/// The kind of bytes of a file.
pub const TYPE_DIRECT: u64 = 2;

/// The kind of entries of a directory.
pub const TYPE_DIRENTRY: u64 = 3;

/// The kind of stat data in an item of format 3.5.
pub const V1_SD_UNIQUENESS: u32 = 0;

/// The kind of pointers to blocks in an item of format 3.5.
pub const V1_INDIRECT_UNIQUENESS: u32 = 0xFFFF_FFFE;

/// The kind of bytes of a file in an item of format 3.5.
pub const V1_DIRECT_UNIQUENESS: u32 = 0xFFFF_FFFF;

/// The kind of entries of a directory in an item of format 3.5.
pub const V1_DIRENTRY_UNIQUENESS: u32 = 500;

/// The level of a leaf.
pub const DISK_LEAF_NODE_LEVEL: u16 = 1;

/// The greatest height of a tree, which is one more than the level of its root.
pub const MAX_HEIGHT: u16 = 7;
