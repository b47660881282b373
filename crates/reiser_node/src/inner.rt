ghost use Rattle.std.specs.Prelude.{◌≡◌, ◌<◌, ◌↔◌, IsSome, IfSome, is_some};
ghost use Rattle.reiser_node.specs.Inner.{IsInner, pointer_count, child_block_at, is_inner};
ghost use Rattle.reiser_node.specs.Leaf.{level};

use reiserfs_format::size::{BLKH_SIZE, DC_SIZE, KEY_SIZE};
use std::marker::Model;
use vol_block::{Block, BlockNo, u16_at, u32_at};

/// A block that is an inner node: keys, and the numbers of its children, one more than keys.
#[derive(Drop)]
pub struct InnerView<'a> {
    block: &'a Block,
}

impl<'a> Model for InnerView<'a> {
    ghost use Rattle.std.specs.Prelude.{ℕ, List};
    ghost use Rattle.reiser_node.specs.Leaf.{level};
    ghost use Rattle.reiser_node.specs.Inner.{IsInner};

    ghost Value = { List ℕ };

    ghost view = { λ v. v.block.now.bytes };

    ghost invariant = { λ v. IsInner (level v.block.now.bytes) v.block.now.bytes };
}

impl InnerView<'_> {
    /// The children of a block; None exactly where it is off the grammar of inner nodes of this level.
    ///
    /// The block has this level, which is 2 to 6, at least one key, and room for its keys of 16 bytes and its
    /// pointers of 8 bytes behind the head of 24 bytes. The keys, the head's free space, reserved field and right
    /// key, and the pointers' sizes and reserved fields are not looked at.
    pub fn read(block: &Block, level: u16) -> Option<InnerView<'_>>
        ensures grammar { IsSome result ↔ IsInner level block.now.bytes }
        ensures value { IfSome result (λ node. node ≡ block.now.bytes) }
        ensures test { is_some result ≡ is_inner level block.now.bytes }
    {
        let count = u16_at(&block.bytes, 2) as usize;
        if u16_at(&block.bytes, 0) == level
            && (2..=6).contains(&level)
            && count >= 1
            && BLKH_SIZE + KEY_SIZE * count + DC_SIZE * (count + 1) <= 4096
        {
            Some(InnerView { block })
        } else {
            None
        }
    }

    /// The children of a block that is known to be an inner node of the level that it names.
    pub fn of(block: &Block) -> InnerView<'_>
        requires { IsInner (level block.now.bytes) block.now.bytes }
        ensures { result ≡ block.now.bytes }
    {
        InnerView { block }
    }

    /// How many children there are: 2 to 170.
    pub fn count(&self) -> usize
        ensures { result ≡ pointer_count self.now }
    {
        u16_at(&self.block.bytes, 2) as usize + 1
    }

    /// The block of child `i`, counted from 0 in the order of keys. It may lie past the end of the volume.
    pub fn child(&self, i: usize) -> BlockNo
        requires { i < pointer_count self.now }
        ensures { result ≡ child_block_at self.now i }
    {
        let count = u16_at(&self.block.bytes, 2) as usize;
        u32_at(
            &self.block.bytes,
            BLKH_SIZE + KEY_SIZE * count + DC_SIZE * i,
        ) as u64
    }
}
