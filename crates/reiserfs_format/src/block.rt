//! Places of the superblock, the bitmap and the journal, in blocks of 4096 bytes, from Linux's fs/reiserfs/reiserfs.h.

/// The block of the superblock: `REISERFS_DISK_OFFSET_IN_BYTES`.
pub const SUPER_BLOCK: u64 = 65536 / 4096;

/// The block of the first part of the bitmap, behind the superblock.
pub const FIRST_BITMAP_BLOCK: u64 = SUPER_BLOCK + 1;

/// The first block behind these: the least one for a journal.
pub const FIRST_FREE_BLOCK: u64 = FIRST_BITMAP_BLOCK + 1;

/// How many blocks have their bits in one block of the bitmap, which is the first of these.
pub const BITS_IN_BLOCK: u64 = 8 * 4096;

/// Where the magic stands in a superblock.
pub const SUPER_MAGIC_OFFSET: usize = 52;

/// Where the magic stands in a block that begins a transaction: `get_journal_desc_magic`.
pub const JOURNAL_MAGIC_OFFSET: usize = 4084;

/// The state of a volume that was unmounted: `REISERFS_VALID_FS`.
pub const VALID_FS: u16 = 1;

/// The flag of a superblock that says that stat data has attributes: `reiserfs_attrs_cleared`.
pub const ATTRS_CLEARED: u32 = 1;
