//! Flags and codes in the bodies of items, from include/uapi/linux/btrfs_tree.h of Linux.

/// A chunk or block group of data.
pub const BLOCK_GROUP_DATA: u64 = 1;

/// A chunk or block group of the chunk tree.
pub const BLOCK_GROUP_SYSTEM: u64 = 2;

/// A chunk or block group of all other trees.
pub const BLOCK_GROUP_METADATA: u64 = 4;

/// A chunk whose bytes are spread over devices.
pub const BLOCK_GROUP_RAID0: u64 = 0x8;

/// A chunk that stands on two devices.
pub const BLOCK_GROUP_RAID1: u64 = 0x10;

/// A chunk that stands twice on one device.
pub const BLOCK_GROUP_DUP: u64 = 0x20;

/// A chunk whose bytes are spread over pairs of devices.
pub const BLOCK_GROUP_RAID10: u64 = 0x40;

/// A chunk with one parity.
pub const BLOCK_GROUP_RAID5: u64 = 0x80;

/// A chunk with two parities.
pub const BLOCK_GROUP_RAID6: u64 = 0x100;

/// A chunk that stands on three devices.
pub const BLOCK_GROUP_RAID1C3: u64 = 0x200;

/// A chunk that stands on four devices.
pub const BLOCK_GROUP_RAID1C4: u64 = 0x400;

/// An extent of data.
pub const EXTENT_FLAG_DATA: u64 = 1;

/// An extent that is a node of a tree.
pub const EXTENT_FLAG_TREE_BLOCK: u64 = 2;

/// The flag of the extent of a node that what the node refers to names the node as its parent.
pub const BLOCK_FLAG_FULL_BACKREF: u64 = 0x100;

/// The flag of nodes and of the superblock that they were written.
pub const HEADER_FLAG_WRITTEN: u64 = 1;

/// The revision of back references, in the top byte of the flags of a node's head.
pub const MIXED_BACKREF_REV: u8 = 1;

/// The flag of a root item that its subvolume is read-only.
pub const ROOT_SUBVOL_RDONLY: u64 = 1;

/// The kind of a file extent whose bytes stand in the item.
pub const FILE_EXTENT_INLINE: u8 = 0;

/// The kind of a file extent that lies on the disk.
pub const FILE_EXTENT_REG: u8 = 1;

/// The kind of a file extent that lies on the disk and reads as zeros.
pub const FILE_EXTENT_PREALLOC: u8 = 2;

/// The kind of a directory entry of a regular file.
pub const FT_REG_FILE: u8 = 1;

/// The kind of a directory entry of a directory, and of a subvolume.
pub const FT_DIR: u8 = 2;

/// The kind of a directory entry of a character device.
pub const FT_CHRDEV: u8 = 3;

/// The kind of a directory entry of a block device.
pub const FT_BLKDEV: u8 = 4;

/// The kind of a directory entry of a named pipe.
pub const FT_FIFO: u8 = 5;

/// The kind of a directory entry of a socket.
pub const FT_SOCK: u8 = 6;

/// The kind of a directory entry of a symbolic link.
pub const FT_SYMLINK: u8 = 7;

/// The flag of an inode whose data has no checksums.
pub const INODE_NODATASUM: u64 = 0x1;

/// The flag of an inode that is written at once.
pub const INODE_SYNC: u64 = 0x20;

/// The flag of an inode that is not changed.
pub const INODE_IMMUTABLE: u64 = 0x40;

/// The flag of an inode that is only appended to.
pub const INODE_APPEND: u64 = 0x80;

/// The flag of an inode that nothing changes: `BTRFS_INODE_READONLY`.
pub const INODE_READONLY: u64 = 0x4;

/// The flag of an inode that is not dumped.
pub const INODE_NODUMP: u64 = 0x100;

/// The flag of an inode whose access time stays.
pub const INODE_NOATIME: u64 = 0x200;
