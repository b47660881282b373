ghost use Rattle.std.specs.Prelude.{◌≡◌, ◌↔◌, ◌*◌, ◌/◌, IsTrue};
ghost use Rattle.vol_block.specs.Volume.{zeros, IsReserved, is_reserved};

use btrfs_format::block::{
    FIRST_MIRROR, FIRST_MIRROR_END, RESERVED_BLOCKS, SECOND_MIRROR, SECOND_MIRROR_END,
};

/// The number of a block in its volume: block b is bytes 4096·b to 4096·b + 4095.
pub type BlockNo = u64;

/// 4096 bytes of a volume.
#[derive(Clone, Copy, Debug, PartialEq, Eq)]
pub struct Block {
    /// The bytes of the block, in their order on the device.
    pub bytes: [u8; 4096],
}

impl Block {
    /// A block of zeros.
    pub fn zero() -> Block
        ensures { result.bytes ≡ zeros }
    {
        Block { bytes: [0; 4096] }
    }

    /// Whether all bytes are zero.
    pub fn is_zero(&self) -> bool
        ensures { IsTrue result ↔ (self.now.bytes ≡ zeros) }
    {
        self.bytes == [0; 4096]
    }
}

/// Where the usable part of a volume of `blocks` blocks ends, in blocks: at the last multiple of 64 KiB.
///
/// Btrfs aligns chunks to 64 KiB, so a chunk that ended later would leave the next one unaligned.
pub fn usable_end(blocks: u64) -> u64
    ensures { result ≡ 16 * (blocks / 16) }
{
    blocks / 16 * 16
}

/// Whether a block of a volume of `blocks` blocks is kept free of chunks, nodes and extents.
///
/// Reserved are the first MiB and 64 KiB at each place of a copy of the Btrfs superblock (at 64 MiB and at
/// 256 GiB), as `btrfs-convert` keeps them, and the blocks from the usable end to `blocks`.
pub fn is_reserved(block: BlockNo, blocks: u64) -> bool
    ensures fact { IsTrue result ↔ IsReserved block blocks }
    ensures test { result ≡ is_reserved block blocks }
{
    block < RESERVED_BLOCKS
        || (FIRST_MIRROR..FIRST_MIRROR_END).contains(&block)
        || (SECOND_MIRROR..SECOND_MIRROR_END).contains(&block)
        || (usable_end(blocks)..blocks).contains(&block)
}
