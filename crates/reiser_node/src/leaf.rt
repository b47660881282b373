ghost use Rattle.std.specs.Prelude.{◌≡◌, ◌<◌, ◌↔◌, Some, IsSome, IfSome, IsTrue, is_some};
ghost use Rattle.reiser_node.specs.Head.{head_at};
ghost use Rattle.reiser_node.specs.Leaf.{IsLeaf, head_place, count, body_at, is_leaf};

use crate::head::{ItemHead, head_at, kind_at};
use reiserfs_format::key::DISK_LEAF_NODE_LEVEL;
use reiserfs_format::size::{BLKH_SIZE, IH_SIZE};
use std::marker::Model;
use vol_block::{Block, u16_at};

/// A block that is a leaf: heads of items, and their bodies.
#[derive(Drop)]
pub struct LeafView<'a> {
    block: &'a Block,
}

impl<'a> Model for LeafView<'a> {
    ghost use Rattle.std.specs.Prelude.{ℕ, List};
    ghost use Rattle.reiser_node.specs.Leaf.{IsLeaf};

    ghost Value = { List ℕ };

    ghost view = { λ v. v.block.now.bytes };

    ghost invariant = { λ v. IsLeaf v.block.now.bytes };
}

impl<'a> LeafView<'a> {
    /// The items of a block; None exactly where it is off the grammar of leaves.
    ///
    /// The block has level 1 and at least one item. Each item's head has version 0 or 1 and one of the four types. The
    /// first body ends at the end of the block, each later one where the one before it begins, and the last begins
    /// behind the heads. The head's free space, reserved field and right key are not looked at, nor the keys.
    pub fn read(block: &'a Block) -> Option<LeafView<'a>>
        ensures grammar { IsSome result ↔ IsLeaf block.now.bytes }
        ensures value { IfSome result (λ leaf. leaf ≡ block.now.bytes) }
        ensures test { is_some result ≡ is_leaf block.now.bytes }
    {
        if is_leaf(block) {
            Some(LeafView { block })
        } else {
            None
        }
    }

    /// The items of a block that is known to be a leaf.
    pub fn of(block: &'a Block) -> LeafView<'a>
        requires { IsLeaf block.now.bytes }
        ensures { result ≡ block.now.bytes }
    {
        LeafView { block }
    }

    /// How many items there are: 1 to 169.
    pub fn count(&self) -> usize
        ensures { result ≡ count self.now }
    {
        u16_at(&self.block.bytes, 2) as usize
    }

    /// The head of item `i`, counted from 0 in the order of keys.
    pub fn head(&self, i: usize) -> ItemHead
        requires { i < count self.now }
        ensures { head_at self.now (head_place i) ≡ Some result }
    {
        match head_at(&self.block.bytes, BLKH_SIZE + IH_SIZE * i) {
            Some(head) => head,
            None => unreachable!(),
        }
    }

    /// The body of item `i`: as many bytes of the block as its head says.
    #[tactic(auto, using(crate::proofs::Grammar::heads_within, crate::proofs::Grammar::body_within))]
    pub fn body(&self, i: usize) -> &'a [u8]
        requires { i < count self.now }
        ensures { result.now ≡ body_at self.now i }
    {
        let bytes = &self.block.bytes;
        let location = u16_at(bytes, BLKH_SIZE + IH_SIZE * i + 20) as usize;
        let length = u16_at(bytes, BLKH_SIZE + IH_SIZE * i + 18) as usize;
        &bytes[location..location + length]
    }
}

/// Whether a block is on the grammar of leaves.
fn is_leaf(block: &Block) -> bool
    ensures { IsTrue result ↔ IsLeaf block.now.bytes }
{
    let bytes = &block.bytes;
    let count = u16_at(bytes, 2) as usize;
    if u16_at(bytes, 0) != DISK_LEAF_NODE_LEVEL
        || count == 0
        || BLKH_SIZE + IH_SIZE * count > 4096
    {
        return false;
    }
    let mut end = 4096;
    for i in 0..count {
        let at = BLKH_SIZE + IH_SIZE * i;
        let location = u16_at(bytes, at + 20) as usize;
        let length = u16_at(bytes, at + 18) as usize;
        if location + length != end || kind_at(bytes, at).is_none() {
            return false;
        }
        end = location;
    }
    BLKH_SIZE + IH_SIZE * count <= end
}
