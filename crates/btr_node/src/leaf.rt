ghost use Rattle.std.specs.Prelude.{◌≡◌, ◌<◌, ◌↔◌, ◌≤◌, ◌*◌, [], length, IsOk, IfOk, IfErr, MatchResult, Contains, slice_index_or};
ghost use Rattle.btr_node.specs.NodeSize.{IsNodeSize};
ghost use Rattle.btr_node.specs.Head.{nritems, behind_head};
ghost use Rattle.btr_node.specs.Leaf.{IsBtrfsLeaf, Item, HasLeafLayout, items_in, item_of, head_at, has_leaf_head, has_leaf_layout, has_leaf_order};
ghost use Rattle.btr_node.specs.Rules.{LeafObeys, leaf_damages};

use crate::areas::has_areas;
use crate::expect::Expect;
use crate::head::{Head, behind_head, has_head};
use crate::item::BtrItemHead;
use crate::order::keys_ascend;
use crate::sum::has_sum;
use btr_keys::Key;
use btr_keys::btrfs_format::size::HEADER_SIZE;
use refusals::BtrRule;
use std::marker::Model;

/// The items of a leaf, seen as a list of keys with their data.
#[derive(Drop)]
pub struct LeafView<'a> {
    bytes: &'a [u8],
}

impl<'a> Model for LeafView<'a> {
    ghost use Rattle.std.specs.Prelude.{List};
    ghost use Rattle.btr_node.specs.Leaf.{Item, items_in, HasLeafLayout};

    ghost Value = { List Item };

    ghost view = { λ v. items_in v.bytes.now };

    ghost invariant = { λ v. HasLeafLayout v.bytes.now };
}

impl<'a> LeafView<'a> {
    /// The items of the leaf with these bytes, of which its parent says `want`; or a rule that the leaf breaks.
    ///
    /// The rules are [`BtrRule::NodeCsum`], [`BtrRule::NodeHead`] (the address, file system, owner, level and
    /// generation), [`BtrRule::NodeLayout`] (the heads and the data) and [`BtrRule::KeyOrder`]. A leaf may be empty.
    pub fn read(bytes: &'a [u8], want: &Expect) -> Result<LeafView<'a>, BtrRule>
        requires { IsNodeSize (length bytes.now) }
        ensures grammar { IsOk result ↔ IsBtrfsLeaf want.now bytes.now }
        ensures items { IfOk result (λ leaf. leaf ≡ items_in bytes.now) }
        ensures fails { IfErr result (λ rule. ¬ LeafObeys rule want.now bytes.now) }
        ensures damages { MatchResult result (λ _. leaf_damages want.now bytes.now ≡ []) (λ rule. Contains (leaf_damages want.now bytes.now) rule) }
    {
        if !has_sum(want.sums, bytes) {
            return Err(BtrRule::NodeCsum);
        }
        if !has_leaf_head(bytes, want) {
            return Err(BtrRule::NodeHead);
        }
        if !has_layout(bytes) {
            return Err(BtrRule::NodeLayout);
        }
        if !has_order(bytes) {
            return Err(BtrRule::KeyOrder);
        }
        Ok(LeafView { bytes })
    }

    /// The items of a leaf whose layout is known to be right.
    pub fn of(bytes: &'a [u8]) -> LeafView<'a>
        requires { HasLeafLayout bytes.now }
        ensures { result ≡ items_in bytes.now }
    {
        LeafView { bytes }
    }

    /// How many items there are.
    pub fn count(&self) -> usize
        ensures { result ≡ length self.now }
    {
        Head::of(self.bytes).count as usize
    }

    /// The key of item i.
    pub fn key(&self, i: usize) -> Key
        requires { i < length self.now }
        ensures { (other : Item) → result ≡ (slice_index_or self.now i other).0 }
    {
        head_at(self.bytes, i).key
    }

    /// The data of item i, in bytes.
    pub fn body(&self, i: usize) -> &'a [u8]
        requires { i < length self.now }
        ensures { (other : Item) → result.now ≡ (slice_index_or self.now i other).1 }
    {
        data_at(self.bytes, i)
    }
}

/// The head of item i of a leaf.
fn head_at(bytes: &[u8], i: usize) -> BtrItemHead
    requires layout { HasLeafLayout bytes.now }
    requires within { i < nritems bytes.now }
    ensures { result ≡ head_at bytes.now i }
{
    BtrItemHead::at(behind_head(bytes), BtrItemHead::SIZE * i)
}

/// The data of item i of a leaf.
fn data_at(bytes: &[u8], i: usize) -> &[u8]
    requires layout { HasLeafLayout bytes.now }
    requires within { i < nritems bytes.now }
    ensures { result.now ≡ (item_of (behind_head bytes.now) (head_at bytes.now i)).1 }
{
    let head = head_at(bytes, i);
    let begin = head.offset as usize;
    &behind_head(bytes)[begin..begin + head.size as usize]
}

/// Whether the parent says of the node that it is a leaf, and what its head says.
fn has_leaf_head(bytes: &[u8], want: &Expect) -> bool
    requires { IsNodeSize (length bytes.now) }
    ensures { result ≡ has_leaf_head want.now bytes.now }
{
    want.level == 0 && has_head(bytes, want)
}

/// Whether the heads of the items lie in the node, and their data where it may.
fn has_layout(bytes: &[u8]) -> bool
    requires { IsNodeSize (length bytes.now) }
    ensures { result ≡ has_leaf_layout bytes.now }
{
    let count = Head::of(bytes).count as usize;
    HEADER_SIZE + BtrItemHead::SIZE * count <= bytes.len() && has_areas(behind_head(bytes), count)
}

/// Whether the keys of the items ascend.
fn has_order(bytes: &[u8]) -> bool
    requires { HasLeafLayout bytes.now }
    ensures { result ≡ has_leaf_order bytes.now }
{
    let count = Head::of(bytes).count as usize;
    keys_ascend(behind_head(bytes), count, BtrItemHead::SIZE)
}
