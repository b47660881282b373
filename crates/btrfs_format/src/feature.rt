//! Features of a volume, from include/uapi/linux/btrfs.h of Linux: `BTRFS_FEATURE_INCOMPAT_..`, and the kind of checksum.

/// Back references of both kinds. Each volume has it today.
pub const MIXED_BACKREF: u64 = 0x1;

/// Another subvolume than the first is mounted where none is named.
pub const DEFAULT_SUBVOL: u64 = 0x2;

/// Data compressed by LZO.
pub const COMPRESS_LZO: u64 = 0x8;

/// Data compressed by Zstandard.
pub const COMPRESS_ZSTD: u64 = 0x10;

/// Nodes that are larger than a page.
pub const BIG_METADATA: u64 = 0x20;

/// Inode extrefs.
pub const EXTENDED_IREF: u64 = 0x40;

/// Metadata items, which have the level of a node in their key.
pub const SKINNY_METADATA: u64 = 0x100;

/// Holes of files without file extents.
pub const NO_HOLES: u64 = 0x200;

/// Nodes carry another id than the one that the volume is known by: its `metadata_uuid`.
pub const METADATA_UUID: u64 = 0x400;

/// Quotas that count an extent for the tree that it was made for.
pub const SIMPLE_QUOTA: u64 = 0x10000;

/// The kind of checksum that is CRC-32C.
pub const CSUM_TYPE_CRC32: u16 = 0;

/// The kind of checksum that is SHA-256.
pub const CSUM_TYPE_SHA256: u16 = 2;

/// A compat_ro feature: the volume has a free space tree, `BTRFS_FEATURE_COMPAT_RO_FREE_SPACE_TREE`.
pub const FREE_SPACE_TREE: u64 = 0x1;

/// A compat_ro feature: the free space tree tells what is free, `BTRFS_FEATURE_COMPAT_RO_FREE_SPACE_TREE_VALID`.
pub const FREE_SPACE_TREE_VALID: u64 = 0x2;
