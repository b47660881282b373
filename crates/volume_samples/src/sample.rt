use btr_keys::Stamp;
use btr_node::Full;
use csum_kinds::SumKind;
use outside::Memory;
use thiserror::Error;

/// The length of a sample in blocks.
pub const BLOCKS: u64 = 12288;

/// The identifiers of the file system, of its device and of its chunk tree.
pub const FSID: [u8; 16] = [0x22; 16];

pub const DEVICE: [u8; 16] = [0x33; 16];

pub const CHUNK_TREE: [u8; 16] = [0x44; 16];

/// The length of a chunk in bytes, and where the system chunk and the metadata chunk begin: their addresses are those of
/// the device.
pub const CHUNK: u64 = 0x10_0000;

pub const SYSTEM: u64 = 33 * CHUNK;

pub const METADATA: u64 = 34 * CHUNK;

/// The size of a node in bytes.
pub const NODE: u32 = 16384;

/// The addresses of the leaves that are the chunk tree and the root tree.
pub const CHUNK_LEAF: u64 = SYSTEM;

pub const ROOT_LEAF: u64 = METADATA;

/// The address of the leaf that is the file tree, number 5, of a sample.
pub const FILE_LEAF: u64 = METADATA + 16384;

/// The time of the root directory, and that of the file.
pub const MOMENT: Stamp = Stamp {
    sec: 1_000_000_000,
    nsec: 0,
};

const LATER: Stamp = Stamp {
    sec: 1_000_000_001,
    nsec: 0,
};

/// Who an inode belongs to, and when it was made.
#[derive(Clone, Copy)]
pub struct Origin {
    pub uid: u32,
    pub gid: u32,
    pub moment: Stamp,
}

/// Of the root directory.
pub const SYSTEM_MADE: Origin = Origin {
    uid: 0,
    gid: 0,
    moment: MOMENT,
};

/// Of the file.
pub const USER_MADE: Origin = Origin {
    uid: 1000,
    gid: 100,
    moment: LATER,
};

/// A volume of 12,288 blocks and one transaction: a system chunk in MiB 33 and a metadata chunk in MiB 34; the chunk tree,
/// the root tree and the file tree, each one leaf of 16 KiB; and in the root directory an empty file `a` of user 1000 and group 100.
#[derive(Clone, Copy, Debug)]
pub struct Sample {
    /// The label, up to its first zero byte.
    pub label: [u8; 256],
    /// Where the superblock says that a log tree is, in bytes; 0 for none.
    pub log_root: u64,
    /// The number of the tree that the leaf of the file tree says it belongs to.
    pub owner: u64,
    /// When `a` was last read.
    pub atime: Stamp,
    /// The kind of checksum of the superblock and of each node.
    pub sums: SumKind,
    /// Where the second copy of the metadata chunk begins on the device, in bytes, if it is to have one. Its bytes are zeros.
    pub mirror: Option<u64>,
    /// The identifier that the file system got later, in place of the one that its nodes have.
    pub known_as: Option<[u8; 16]>,
}

impl Sample {
    /// A good volume without a label.
    pub const PLAIN: Sample = Sample {
        label: [0; 256],
        log_root: 0,
        owner: 5,
        atime: LATER,
        sums: SumKind::Crc32c,
        mirror: None,
        known_as: None,
    };
}

/// Why a sample was not made.
#[derive(Clone, Copy, Debug, PartialEq, Eq, Error)]
pub enum SampleAnswer {
    /// The items of a leaf take more than it has.
    #[error("node is full")]
    Full,
    /// There was no memory.
    #[error("out of memory")]
    Memory,
}

impl From<Full> for SampleAnswer {
    fn from(_: Full) -> Self {
        SampleAnswer::Full
    }
}

impl From<Memory> for SampleAnswer {
    fn from(_: Memory) -> Self {
        SampleAnswer::Memory
    }
}
