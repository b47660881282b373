ghost use Rattle.std.specs.Prelude.{◌≡◌, ◌≤◌, ◌+◌, ◌-◌, ◌/◌, ◌++◌, Bool, [], length, map, reverse, vec_capacity, MatchResult, Contains, OnOk, OnErr};
ghost use Rattle.btr_node.specs.Inner.{children_in};
ghost use Rattle.btr_node.specs.Leaf.{HasLeafLayout};
ghost use Rattle.btr_node.specs.NodeSize.{IsNodeSize};
ghost use Rattle.btr_reader_walk.specs.Node.{content_damages};
ghost use Rattle.btr_reader_walk.specs.Nodes.{child_entries, child_entry};
ghost use Rattle.btr_reader_walk.specs.Stack.{fan_out};

use crate::tree::{NodeEntry, NodePointer};
use btr_node::{BtrRule, Expect, InnerView, LeafView};

/// A rule that the leaf with these bytes breaks, if there is one. Only a leaf that may be bare may have no items.
pub fn check_leaf(bytes: &[u8], want: &Expect, bare: bool) -> Result<(), BtrRule>
    requires size { IsNodeSize (length bytes.now) }
    requires leaf { want.now.level ≡ 0 }
    ensures layout { OnOk result (HasLeafLayout bytes.now) }
    ensures damages { MatchResult result (λ _. content_damages want.now bare bytes.now ≡ []) (λ rule. Contains (content_damages want.now bare bytes.now) rule) }
{
    let count = match LeafView::read(bytes, want) {
        Ok(leaf) => leaf.count(),
        Err(rule) => return Err(rule),
    };
    if count == 0 && !bare {
        return Err(BtrRule::NodeHead);
    }
    Ok(())
}

/// Puts the children of the inner node with these bytes onto a stack, the first one last; or answers a rule that the
/// node breaks.
pub fn open_inner(bytes: &[u8], want: &Expect, pending: &mut Vec<NodeEntry>) -> Result<(), BtrRule>
    requires size { IsNodeSize (length bytes.now) }
    requires inner { 1 ≤ want.now.level }
    requires room { length pending.old.items + fan_out (length bytes.now) ≤ vec_capacity pending.old }
    ensures pushed { OnOk result (pending.new.items ≡ pending.old.items ++ reverse (child_entries want.now.level bytes.now)) }
    ensures few { OnOk result (length (children_in bytes.now) ≤ fan_out (length bytes.now)) }
    ensures unchanged { OnErr result (pending.new.items ≡ pending.old.items) }
    ensures capacity { vec_capacity pending.new ≡ vec_capacity pending.old }
    ensures damages { (bare : Bool) → MatchResult result (λ _. content_damages want.now bare bytes.now ≡ []) (λ rule. Contains (content_damages want.now bare bytes.now) rule) }
{
    match InnerView::read(bytes, want) {
        Ok(node) => push_children(pending, &node, want.level - 1),
        Err(rule) => return Err(rule),
    }
    Ok(())
}

/// Puts the children of a node onto a stack, the first one last.
fn push_children(pending: &mut Vec<NodeEntry>, node: &InnerView<'_>, level: u8)
    requires { length pending.old.items + length node.now ≤ vec_capacity pending.old }
    ensures pushed { pending.new.items ≡ pending.old.items ++ reverse (map (child_entry level) node.now) }
    ensures capacity { vec_capacity pending.new ≡ vec_capacity pending.old }
{
    let mut left = node.count();
    while left > 0 {
        left -= 1;
        let child = node.child(left);
        pending.push_reserved(NodeEntry {
            pointer: NodePointer {
                address: child.address,
                level,
                generation: child.generation,
            },
            key: Some(child.key),
        });
    }
}
