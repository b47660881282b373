ghost use Rattle.std.specs.Prelude.{◌≡◌, ◌<◌, ◌↔◌, [], length, IsOk, IfOk, IfErr, MatchResult, Contains, slice_index_or};
ghost use Rattle.btr_node.specs.NodeSize.{IsNodeSize};
ghost use Rattle.btr_node.specs.Head.{nritems};
ghost use Rattle.btr_node.specs.Inner.{IsBtrfsInner, HasInnerLayout, children_in, child_at, has_inner_head, has_inner_layout, has_inner_order};
ghost use Rattle.btr_node.specs.Rules.{InnerObeys, inner_damages};

use crate::child::Child;
use crate::expect::Expect;
use crate::head::{Head, behind_head, has_head};
use crate::order::keys_ascend;
use crate::sum::has_sum;
use btr_keys::btrfs_format::size::HEADER_SIZE;
use refusals::BtrRule;
use std::marker::Model;

/// The children of an inner node, seen as a list.
#[derive(Drop)]
pub struct InnerView<'a> {
    bytes: &'a [u8],
}

impl<'a> Model for InnerView<'a> {
    ghost use Rattle.std.specs.Prelude.{List};
    ghost use Rattle.btr_node.specs.declared.child.Child.{Child};
    ghost use Rattle.btr_node.specs.Inner.{children_in, HasInnerLayout};

    ghost Value = { List Child };

    ghost view = { λ v. children_in v.bytes.now };

    ghost invariant = { λ v. HasInnerLayout v.bytes.now };
}

impl<'a> InnerView<'a> {
    /// The children of the inner node with these bytes, of which its parent says `want`; or a rule that the node
    /// breaks.
    ///
    /// The rules are [`BtrRule::NodeCsum`], [`BtrRule::NodeHead`] (the address, file system, owner, level and
    /// generation, and that there is a child), [`BtrRule::NodeLayout`] (that the children lie in the node) and
    /// [`BtrRule::KeyOrder`].
    pub fn read(bytes: &'a [u8], want: &Expect) -> Result<InnerView<'a>, BtrRule>
        requires { IsNodeSize (length bytes.now) }
        ensures grammar { IsOk result ↔ IsBtrfsInner want.now bytes.now }
        ensures children { IfOk result (λ node. node ≡ children_in bytes.now) }
        ensures fails { IfErr result (λ rule. ¬ InnerObeys rule want.now bytes.now) }
        ensures damages { MatchResult result (λ _. inner_damages want.now bytes.now ≡ []) (λ rule. Contains (inner_damages want.now bytes.now) rule) }
    {
        if !has_sum(want.sums, bytes) {
            return Err(BtrRule::NodeCsum);
        }
        if !has_inner_head(bytes, want) {
            return Err(BtrRule::NodeHead);
        }
        if !has_layout(bytes) {
            return Err(BtrRule::NodeLayout);
        }
        if !has_order(bytes) {
            return Err(BtrRule::KeyOrder);
        }
        Ok(InnerView { bytes })
    }

    /// How many children there are.
    pub fn count(&self) -> usize
        ensures { result ≡ length self.now }
    {
        Head::of(self.bytes).count as usize
    }

    /// Child i.
    pub fn child(&self, i: usize) -> Child
        requires { i < length self.now }
        ensures { (other : Child) → result ≡ slice_index_or self.now i other }
    {
        child_at(self.bytes, i)
    }
}

/// Child i of an inner node.
fn child_at(bytes: &[u8], i: usize) -> Child
    requires layout { HasInnerLayout bytes.now }
    requires within { i < nritems bytes.now }
    ensures { result ≡ child_at bytes.now i }
{
    Child::at(behind_head(bytes), Child::SIZE * i)
}

/// Whether the parent says of the node that it is an inner node, and what its head says, and there is a child.
fn has_inner_head(bytes: &[u8], want: &Expect) -> bool
    requires { IsNodeSize (length bytes.now) }
    ensures { result ≡ has_inner_head want.now bytes.now }
{
    want.level > 0 && Head::of(bytes).count > 0 && has_head(bytes, want)
}

/// Whether the children lie in the node.
fn has_layout(bytes: &[u8]) -> bool
    requires { IsNodeSize (length bytes.now) }
    ensures { result ≡ has_inner_layout bytes.now }
{
    HEADER_SIZE + Child::SIZE * Head::of(bytes).count as usize <= bytes.len()
}

/// Whether the first keys of the children ascend.
fn has_order(bytes: &[u8]) -> bool
    requires { HasInnerLayout bytes.now }
    ensures { result ≡ has_inner_order bytes.now }
{
    let count = Head::of(bytes).count as usize;
    keys_ascend(behind_head(bytes), count, Child::SIZE)
}
