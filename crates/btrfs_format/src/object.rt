//! Numbers of trees and of other objects, from include/uapi/linux/btrfs_tree.h of Linux: `BTRFS_.._OBJECTID`. Trees stand here
//! without `_OBJECTID`.

/// The root tree, which has the roots of all other trees but the chunk tree.
pub const ROOT_TREE: u64 = 1;

/// The extent tree, which has what is in use.
pub const EXTENT_TREE: u64 = 2;

/// The chunk tree, which has where logical addresses lie.
pub const CHUNK_TREE: u64 = 3;

/// The device tree, which has what of a device is in use.
pub const DEV_TREE: u64 = 4;

/// The first tree of files.
pub const FS_TREE: u64 = 5;

/// The directory of the root tree, whose entry `default` is the default subvolume.
pub const ROOT_TREE_DIR_OBJECTID: u64 = 6;

/// The checksum tree, which has the checksums of data.
pub const CSUM_TREE: u64 = 7;

/// The quota tree, which has how much subvolumes take.
pub const QUOTA_TREE: u64 = 8;

/// The UUID tree, which has the numbers of subvolumes by their ids.
pub const UUID_TREE: u64 = 9;

/// The free space tree, which has what of block groups is free.
pub const FREE_SPACE_TREE: u64 = 10;

/// Trees that are relocated: −8.
pub const TREE_RELOC: u64 = u64::MAX - 7;

/// The tree of data that is relocated: −9.
pub const DATA_RELOC_TREE: u64 = u64::MAX - 8;

/// The object of all checksum items: −10.
pub const EXTENT_CSUM_OBJECTID: u64 = u64::MAX - 9;

/// The first number for inodes of a tree of files, which its root directory has, and for subvolumes.
pub const FIRST_FREE_OBJECTID: u64 = 256;

/// The object of all chunk items, and of all block groups.
pub const FIRST_CHUNK_TREE_OBJECTID: u64 = 256;

/// The object of all device items.
pub const DEV_ITEMS_OBJECTID: u64 = 1;

/// The subvolume that keeps the image of the old volume: `CONV_IMAGE_SUBVOL_OBJECTID` of btrfs-progs.
pub const CONV_IMAGE_SUBVOL: u64 = FIRST_FREE_OBJECTID;
