ghost use Rattle.std.specs.Prelude.{◌≡◌, ◌≤◌, ◌<◌, ◌+◌, ◌*◌, ◌^◌, length};
ghost use Rattle.reiser_make.specs.Bitmap.{bitmap_bytes, marks, byte_of, is_marked, bit};
ghost use Rattle.reiser_make.specs.Places.{bitmap_blocks, free_blocks, is_taken};

use reiser_items::reiserfs_format::block::BITS_IN_BLOCK;
use reiser_items::{Block, BlockNo};

/// What is in use of a volume of `blocks` blocks: all below `needed`, and the bitmap blocks.
#[derive(Clone, Copy, Debug, PartialEq, Eq)]
pub struct Usage {
    /// One more than the last block that is used, bitmap blocks apart.
    pub needed: u32,
    /// How many blocks the volume has.
    pub blocks: u32,
}

impl Usage {
    /// How many bitmap blocks the volume has.
    pub fn bitmap_blocks(&self) -> u32
        ensures { result ≡ bitmap_blocks self.now.blocks }
    {
        self.blocks.div_ceil(32768)
    }

    /// How many blocks are free.
    pub fn free(&self) -> u32
        requires { self.now.needed ≤ self.now.blocks }
        ensures { result ≡ free_blocks self.now.needed self.now.blocks }
    {
        let bitmaps = self
            .blocks
            .div_ceil(32768)
            .saturating_sub(self.needed.div_ceil(32768));
        (self.blocks - self.needed).saturating_sub(bitmaps)
    }

    /// Writes bitmap block `k`.
    pub fn put_bitmap(&self, k: u32, into: &mut Block)
        requires { k < 2 ^ 16 }
        ensures { into.new.bytes ≡ bitmap_bytes self.now.needed self.now.blocks k }
    {
        self.put_bits(BITS_IN_BLOCK * k as u64, &mut into.bytes);
    }

    /// Writes the marks of blocks from `first` on.
    #[tactic(auto, unfolding(crate::specs::Bitmap::marks))]
    fn put_bits(&self, first: BlockNo, into: &mut [u8])
        requires first { first < 2 ^ 32 }
        requires room { length into.old ≡ 4096 }
        ensures { into.new ≡ marks self.now.needed self.now.blocks first (length into.old) }
    {
        for j in 0..into.len() {
            into[j] = self.byte_of(first + 8 * j as u64);
        }
    }

    /// The bits of eight blocks, the low bit first.
    fn byte_of(&self, first: BlockNo) -> u8
        requires { first < 2 ^ 40 }
        ensures { result ≡ byte_of (is_marked self.now.needed self.now.blocks) first }
    {
        self.bit(first)
            + 2 * self.bit(first + 1)
            + 4 * self.bit(first + 2)
            + 8 * self.bit(first + 3)
            + 16 * self.bit(first + 4)
            + 32 * self.bit(first + 5)
            + 64 * self.bit(first + 6)
            + 128 * self.bit(first + 7)
    }

    /// The bit of a block.
    fn bit(&self, block: BlockNo) -> u8
        ensures bit { result ≡ bit (is_marked self.now.needed self.now.blocks block) }
        ensures most { result ≤ 1 }
    {
        if self.is_marked(block) { 1 } else { 0 }
    }

    /// Whether a block is marked: it is in use, or as mkfs.reiserfs and Linux have it, it lies past the end.
    fn is_marked(&self, block: BlockNo) -> bool
        ensures { result ≡ is_marked self.now.needed self.now.blocks block }
    {
        block < self.needed as u64 || block % BITS_IN_BLOCK == 0 || self.blocks as u64 <= block
    }
}
