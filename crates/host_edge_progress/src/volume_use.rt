// How much of a volume is in use, as the block of its superblock tells.
use outside::{Block, Format, format_of, u32_at, u64_at};
use reiser_node::reiserfs_format::block::BITS_IN_BLOCK;

/// The bytes of a block.
const BLOCK_BYTES: u64 = 4096;

/// How much of a volume is in use. Nobody has checked what its superblock says, so it serves to tell how far a command is, and nothing else.
#[derive(Clone, Copy, Debug, PartialEq, Eq)]
pub struct VolumeUse {
    /// The blocks in use.
    pub used: u64,
    /// How many of them are the journal of a volume of ReiserFS. It is looked through once, and is no part of the tree.
    pub journal: u64,
    /// How many of them are its journal and its bitmap. They are read before the tree.
    pub front: u64,
}

impl VolumeUse {
    /// By the block of the superblock. None where there is no superblock, or its numbers don't fit together.
    ///
    /// | Format | Field | From byte | Bytes |
    /// |---|---|---|---|
    /// | ReiserFS | blocks of the volume | 0 | 4 |
    /// | | free blocks | 4 | 4 |
    /// | | blocks of the journal, without its header | 20 | 4 |
    /// | Btrfs | bytes in use | 120 | 8 |
    pub fn of(block: &Block) -> Option<VolumeUse> {
        match format_of(block) {
            Format::Reiser => {
                let blocks = u32_at(&block.bytes, 0);
                let free = u32_at(&block.bytes, 4);
                let journal = u64::from(u32_at(&block.bytes, 20)) + 1;
                Some(VolumeUse {
                    used: u64::from(blocks.checked_sub(free)?),
                    journal,
                    front: journal.saturating_add(u64::from(blocks).div_ceil(BITS_IN_BLOCK)),
                })
            }
            Format::Btrfs => Some(VolumeUse {
                used: u64_at(&block.bytes, 120) / BLOCK_BYTES,
                journal: 0,
                front: 0,
            }),
            Format::Neither => None,
        }
    }
}
