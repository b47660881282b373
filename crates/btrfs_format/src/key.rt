//! Kinds of keys, from include/uapi/linux/btrfs_tree.h of Linux: `BTRFS_.._KEY`.

/// An inode: (inode, kind, 0).
pub const INODE_ITEM: u8 = 1;

/// Names of an inode in a directory: (inode, kind, directory).
pub const INODE_REF: u8 = 12;

/// Names of an inode that have no room in an inode ref: (inode, kind, hash).
pub const INODE_EXTREF: u8 = 13;

/// Extended attributes: (inode, kind, hash of the name).
pub const XATTR_ITEM: u8 = 24;

/// An inode that is to be removed or cut: (−5, kind, inode).
pub const ORPHAN_ITEM: u8 = 48;

/// Entries of a directory: (directory, kind, hash of the name).
pub const DIR_ITEM: u8 = 84;

/// An entry of a directory: (directory, kind, index).
pub const DIR_INDEX: u8 = 96;

/// An extent of a file: (inode, kind, offset in bytes).
pub const EXTENT_DATA: u8 = 108;

/// Checksums of data: (−10, kind, logical address).
pub const EXTENT_CSUM: u8 = 128;

/// The root of a tree: (tree, kind, 0).
pub const ROOT_ITEM: u8 = 132;

/// Where a tree stands in another: (tree, kind, parent tree).
pub const ROOT_BACKREF: u8 = 144;

/// A tree that stands in this one: (parent tree, kind, tree).
pub const ROOT_REF: u8 = 156;

/// An extent in use: (logical address, kind, length).
pub const EXTENT_ITEM: u8 = 168;

/// A node in use: (logical address, kind, level).
pub const METADATA_ITEM: u8 = 169;

/// A reference to a node by its tree; inline, the first byte of one.
pub const TREE_BLOCK_REF: u8 = 176;

/// A reference to an extent by tree, inode and offset; inline, the first byte of one.
pub const EXTENT_DATA_REF: u8 = 178;

/// A reference to a node by its parent.
pub const SHARED_BLOCK_REF: u8 = 182;

/// A reference to an extent by the leaf that names it.
pub const SHARED_DATA_REF: u8 = 184;

/// A block group: (logical address, kind, length).
pub const BLOCK_GROUP_ITEM: u8 = 192;

/// What is told of the free space of a block group: (logical address, kind, length).
pub const FREE_SPACE_INFO: u8 = 198;

/// A free range: (logical address, kind, length).
pub const FREE_SPACE_EXTENT: u8 = 199;

/// A range with a bit for each of its blocks: (logical address, kind, length).
pub const FREE_SPACE_BITMAP: u8 = 200;

/// A part of a device that is in use: (device, kind, physical address).
pub const DEV_EXTENT: u8 = 204;

/// A device: (1, kind, device).
pub const DEV_ITEM: u8 = 216;

/// A chunk: (256, kind, logical address).
pub const CHUNK_ITEM: u8 = 228;
