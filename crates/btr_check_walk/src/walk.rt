// The items of a tree, one after the other.
ghost use Rattle.std.specs.Prelude.{◌≡◌, ◌≤◌, ◌++◌, ◌∷◌, [], List, map, IfErr, MatchResult, OnOk};
ghost use Rattle.btr_check_rules.specs.btr_reader.btr_node.Leaf.{HasLeafLayout, items_in};
ghost use Rattle.btr_check_rules.specs.btr_reader.btr_node.NodeSize.{IsNodeSize};
ghost use Rattle.btr_check_rules.specs.btr_reader.btr_reader_walk.Events.{TreeItem, in_leaf};
ghost use Rattle.btr_check_rules.specs.btr_reader.btr_reader_walk.Tree.{order_damages};
ghost use Rattle.btr_check_rules.specs.btr_reader.btr_reader_walk.Walks.{LieOn};
ghost use Rattle.btr_check_rules.specs.btr_reader.btr_reader_walk.outside.Fault.{HasCauseOf};
ghost use Rattle.btr_check_rules.specs.btr_reader.btr_reader_walk.outside.History.{OverTold};
ghost use Rattle.btr_check_rules.specs.Walk.{if_leaf, walk_refusals, walked_items};
ghost use Rattle.btr_check_walk.specs.Parts.{IsPartAnswer, IsVisitAnswer};
ghost use Rattle.btr_check_walk.specs.Walks.{EndsWalk, Stands};

use crate::last_key::is_above;
use crate::open_node::{open_node, owners_of};
use crate::parts::SoundPart;
use crate::visitor::ItemVisitor;
use btr_check_rules::btr_reader::btr_reader_walk::{
    BlockSource, Key, MapRange, NodePointer, NodeWalker, Tree,
};
use btr_node::LeafView;
use command_answers::Answer;
use std::alloc::Global;

/// Gives an item to the visitor, where its key is above the last one.
fn give<V: ItemVisitor>(
    alloc: Global,
    key: &Key,
    body: &[u8],
    leaf: u64,
    last: &mut Option<Key>,
    visitor: &mut V,
) -> Result<(), Answer>
    ensures given { (begun : V) (items : List TreeItem) → Stands (V.holds begun visitor.old) last.old items
        → MatchResult result (λ _. Stands (V.holds begun visitor.new) last.new (items ++ in_leaf leaf (key.now, body.now) ∷ []))
        (EndsWalk (order_damages None (items ++ in_leaf leaf (key.now, body.now) ∷ [])) (V.refuses begun) (items ++ in_leaf leaf (key.now, body.now) ∷ [])) }
    ensures answers { IfErr result IsVisitAnswer }
{
    if !is_above(last, key) {
        return Err(SoundPart::Trees.fails_at(leaf));
    }
    *last = Some(*key);
    visitor.visit(alloc, key, body, leaf)
}

/// Gives the items of the leaf with these bytes to the visitor.
fn give_leaf<V: ItemVisitor>(
    alloc: Global,
    bytes: &[u8],
    address: u64,
    last: &mut Option<Key>,
    visitor: &mut V,
) -> Result<(), Answer>
    requires layout { HasLeafLayout bytes.now }
    ensures given { (begun : V) (items : List TreeItem) → Stands (V.holds begun visitor.old) last.old items
        → MatchResult result (λ _. Stands (V.holds begun visitor.new) last.new (items ++ map (in_leaf address) (items_in bytes.now)))
        (EndsWalk (order_damages None (items ++ map (in_leaf address) (items_in bytes.now))) (V.refuses begun) (items ++ map (in_leaf address) (items_in bytes.now))) }
    ensures answers { IfErr result IsVisitAnswer }
{
    let leaf = LeafView::of(bytes);
    for i in 0..leaf.count() {
        give(alloc, &leaf.key(i), leaf.body(i), address, last, visitor)?;
    }
    Ok(())
}

/// Gives the items of a node with these bytes to the visitor: one above the leaves has none.
fn give_node<V: ItemVisitor>(
    alloc: Global,
    bytes: &[u8],
    node: &NodePointer,
    last: &mut Option<Key>,
    visitor: &mut V,
) -> Result<(), Answer>
    requires layout { node.now.level ≡ 0 → HasLeafLayout bytes.now }
    ensures given { (begun : V) (items : List TreeItem) → Stands (V.holds begun visitor.old) last.old items
        → MatchResult result (λ _. Stands (V.holds begun visitor.new) last.new (items ++ if_leaf node.now.level (map (in_leaf node.now.address) (items_in bytes.now))))
        (EndsWalk (order_damages None (items ++ if_leaf node.now.level (map (in_leaf node.now.address) (items_in bytes.now)))) (V.refuses begun)
        (items ++ if_leaf node.now.level (map (in_leaf node.now.address) (items_in bytes.now)))) }
    ensures answers { IfErr result IsVisitAnswer }
{
    if node.level > 0 {
        return Ok(());
    }
    give_leaf(alloc, bytes, node.address, last, visitor)
}

/// Gives all items of a tree to a visitor, in the order of their keys, by the map `ranges`.
///
/// Every node is read once. It ends with the first thing that is wrong: [`Answer::NotSound`] of part 1 at a node that
/// breaks a rule or whose keys do not ascend, or what the visitor answers.
pub fn each_item<S: BlockSource, V: ItemVisitor>(
    alloc: Global,
    src: &mut S,
    ranges: &[MapRange],
    tree: Tree,
    visitor: &mut V,
) -> Result<(), Answer>
    requires size { IsNodeSize tree.form.nodesize }
    requires high { tree.root.level ≤ 7 }
    requires inside { LieOn (S.size src.old) ranges.now }
    requires begun { V.holds visitor.old visitor.old [] }
    ensures kept { S.kept src.old src.new }
    ensures cause { HasCauseOf Answer.Fault (S.faults src.old) (S.faults src.new) result }
    ensures answers { IfErr result IsPartAnswer }
    ensures visited { OverTold S.tells (S.blocks src.old) (λ image. OnOk result (V.holds visitor.old visitor.new (walked_items image ranges.now tree))) }
    ensures ok { OverTold S.tells (S.blocks src.old) (λ image. OnOk result (walk_refusals image ranges.now tree ≡ [])) }
    ensures err { OverTold S.tells (S.blocks src.old) (λ image. IfErr result (EndsWalk (walk_refusals image ranges.now tree) (V.refuses visitor.old) (walked_items image ranges.now tree))) }
{
    let mut walker = NodeWalker::new(alloc, tree, owners_of(tree.owner))?;
    let mut last = None;
    while let Some(entry) = walker.take() {
        open_node(&mut walker, src, ranges, &entry)?;
        give_node(alloc, walker.bytes(), &entry.pointer, &mut last, visitor)?;
    }
    Ok(())
}
