//! Sizes of structures in bytes, from include/uapi/linux/btrfs_tree.h of Linux.

/// The room for a checksum at the start of a node or superblock: `BTRFS_CSUM_SIZE`.
pub const CSUM_SIZE: usize = 32;

/// `struct btrfs_disk_key`.
pub const KEY_SIZE: usize = 17;

/// The head of a node: `struct btrfs_header`.
pub const HEADER_SIZE: usize = 101;

/// The head of a node behind its checksum.
pub const HEADER_REST_SIZE: usize = HEADER_SIZE - CSUM_SIZE;

/// The head of an item in a leaf: `struct btrfs_item`.
pub const ITEM_SIZE: usize = 25;

/// A child in an inner node: `struct btrfs_key_ptr`.
pub const KEY_PTR_SIZE: usize = 33;

/// How many levels a tree has at most: `BTRFS_MAX_LEVEL`.
pub const MAX_LEVEL: u8 = 8;

/// `struct btrfs_timespec`.
pub const TIMESPEC_SIZE: usize = 12;

/// `struct btrfs_inode_item`.
pub const INODE_ITEM_SIZE: usize = 160;

/// `struct btrfs_inode_ref`, with no name behind it.
pub const INODE_REF_SIZE: usize = 10;

/// `struct btrfs_inode_extref`, with no name behind it.
pub const INODE_EXTREF_SIZE: usize = 18;

/// `struct btrfs_dir_item`, with no name behind it.
pub const DIR_ITEM_SIZE: usize = 30;

/// The most bytes of a name: `BTRFS_NAME_LEN`.
pub const NAME_LEN: usize = 255;

/// `struct btrfs_file_extent_item` of an extent that lies on the disk.
pub const FILE_EXTENT_SIZE: usize = 53;

/// Where the bytes of an inline extent begin: `BTRFS_FILE_EXTENT_INLINE_DATA_START`.
pub const FILE_EXTENT_INLINE_START: usize = 21;

/// `struct btrfs_root_item`.
pub const ROOT_ITEM_SIZE: usize = 439;

/// `struct btrfs_root_ref`, with no name behind it.
pub const ROOT_REF_SIZE: usize = 18;

/// `struct btrfs_extent_item`, with no references behind it.
pub const EXTENT_ITEM_SIZE: usize = 24;

/// An inline reference to a node: `struct btrfs_extent_inline_ref`.
pub const INLINE_BLOCK_REF_SIZE: usize = 9;

/// An extent item or metadata item with the reference of a tree behind it.
pub const METADATA_ITEM_SIZE: usize = EXTENT_ITEM_SIZE + INLINE_BLOCK_REF_SIZE;

/// An inline reference to data: a kind and `struct btrfs_extent_data_ref`.
pub const INLINE_DATA_REF_SIZE: usize = 29;

/// `struct btrfs_block_group_item`.
pub const BLOCK_GROUP_ITEM_SIZE: usize = 24;

/// `struct btrfs_dev_item`.
pub const DEV_ITEM_SIZE: usize = 98;

/// `struct btrfs_dev_extent`.
pub const DEV_EXTENT_SIZE: usize = 48;

/// `struct btrfs_stripe`.
pub const STRIPE_SIZE: usize = 32;

/// `struct btrfs_chunk` before its stripes.
pub const CHUNK_HEAD_SIZE: usize = 48;

/// `struct btrfs_chunk`, which has one stripe.
pub const CHUNK_SIZE: usize = CHUNK_HEAD_SIZE + STRIPE_SIZE;

/// A chunk of one stripe in the superblock, with its key.
pub const SYSTEM_CHUNK_SIZE: usize = KEY_SIZE + CHUNK_SIZE;

/// The room for chunks in the superblock: `BTRFS_SYSTEM_CHUNK_ARRAY_SIZE`.
pub const SYSTEM_CHUNK_ARRAY_SIZE: usize = 2048;

/// The room for the label: `BTRFS_LABEL_SIZE`.
pub const LABEL_SIZE: usize = 256;
