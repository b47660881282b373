/// What `inspect` tells of a Btrfs volume.
#[derive(Clone, Copy, Debug, PartialEq, Eq)]
pub struct Summary {
    /// The file system's identifier.
    pub fsid: [u8; 16],
    /// The length of the volume in blocks of 4096 bytes.
    pub blocks: u64,
    /// The transaction that wrote the superblock.
    pub generation: u64,
    /// The size of a node in bytes.
    pub nodesize: u32,
    /// The label, up to its first zero byte.
    pub label: [u8; 256],
    /// The length of the saved image in blocks of 4096 bytes; None where it is missing.
    pub image: Option<u64>,
}
