//! Places of the superblock, from fs/btrfs/fs.h and fs/btrfs/disk-io.h of Linux. Blocks have 4096 bytes.

/// The magic of a superblock.
pub const MAGIC: &[u8] = b"_BHRfS_M";

/// Where the magic stands in a superblock.
pub const SUPER_MAGIC_OFFSET: usize = 64;

/// Where the first superblock lies, in bytes: at 64 KiB.
pub const SUPER_INFO_OFFSET: u64 = 1 << 16;

/// The block of the first superblock. That of ReiserFS lies there too.
pub const SUPER_BLOCK: u64 = SUPER_INFO_OFFSET / 4096;

/// The block of the first copy of the superblock, at 64 MiB.
pub const FIRST_MIRROR: u64 = (1 << 26) / 4096;

/// The block of the second copy of the superblock, at 256 GiB.
pub const SECOND_MIRROR: u64 = (1 << 38) / 4096;

/// How many blocks are kept free at a copy of the superblock: 64 KiB, `BTRFS_STRIPE_LEN`.
pub const MIRROR_BLOCKS: u64 = (1 << 16) / 4096;

/// How many blocks are kept free at the start of a device: 1 MiB, `BTRFS_DEVICE_RANGE_RESERVED`.
pub const RESERVED_BLOCKS: u64 = (1 << 20) / 4096;

/// Where the blocks end that are kept free at the first copy.
pub const FIRST_MIRROR_END: u64 = FIRST_MIRROR + MIRROR_BLOCKS;

/// Where the blocks end that are kept free at the second copy.
pub const SECOND_MIRROR_END: u64 = SECOND_MIRROR + MIRROR_BLOCKS;
