//! Sizes of structures in bytes, from Linux's fs/reiserfs/reiserfs.h.

/// The head of a node: `struct block_head`.
pub const BLKH_SIZE: usize = 24;

/// The head of an item in a leaf: `struct item_head`.
pub const IH_SIZE: usize = 24;

/// A key in an inner node: `struct reiserfs_key`.
pub const KEY_SIZE: usize = 16;

/// A child in an inner node: `struct disk_child`.
pub const DC_SIZE: usize = 8;

/// The head of an entry of a directory: `struct reiserfs_de_head`.
pub const DEH_SIZE: usize = 16;

/// Stat data: `struct stat_data`.
pub const SD_SIZE: usize = 44;

/// Stat data of format 3.5: `struct stat_data_v1`.
pub const SD_V1_SIZE: usize = 32;
