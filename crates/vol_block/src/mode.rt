// The kinds of objects in the mode of a file, which both formats have as stat(2) has them.

/// A named pipe, in the four bits above the permissions: `DT_FIFO` of Linux's include/linux/fs_types.h.
pub const DT_FIFO: u32 = 1;

/// A character device.
pub const DT_CHR: u32 = 2;

/// A directory.
pub const DT_DIR: u32 = 4;

/// A block device.
pub const DT_BLK: u32 = 6;

/// A regular file.
pub const DT_REG: u32 = 8;

/// A symbolic link.
pub const DT_LNK: u32 = 10;

/// A socket.
pub const DT_SOCK: u32 = 12;

/// A directory, in a whole mode: `S_IFDIR` of Linux's include/uapi/linux/stat.h.
pub const S_IFDIR: u32 = DT_DIR << 12;

/// A regular file, in a whole mode.
pub const S_IFREG: u32 = DT_REG << 12;

/// The mode of a directory that only its owner may write.
pub const DIRECTORY_MODE: u32 = S_IFDIR | 0o755;

/// The mode of a file that only its owner may read, and nobody write.
pub const IMAGE_MODE: u32 = S_IFREG | 0o400;
