ghost use Rattle.std.specs.Prelude.{◌≡◌, ◌≤◌, ◌<◌, ◌+◌, [], List, true, false, is_err, IsTrue, IfOk, IfErr, IfSome, OnOk, Contains};
ghost use Rattle.std.specs.Result.{MatchResult};
ghost use Rattle.btr_node.specs.outside.Fault.{HasCauseOf};
ghost use Rattle.btr_node.specs.outside.History.{Image, OverTold};
ghost use Rattle.btr_node.specs.Leaf.{HasLeafLayout};
ghost use Rattle.btr_node.specs.NodeSize.{IsNodeSize};
ghost use Rattle.btr_reader_walk.specs.declared.map.MapRange.{MapRange as RangeOf};
ghost use Rattle.btr_reader_walk.specs.Events.{TreeItem};
ghost use Rattle.btr_reader_walk.specs.Tree.{is_above};
ghost use Rattle.btr_reader_walk.specs.Stack.{weight};
ghost use Rattle.btr_reader_walk.specs.Visits.{HasRoom};
ghost use Rattle.btr_reader_walk.specs.Walks.{Walks, IsIn, TakesNode, Moves, Comes, StandsLast, HasItem, Blames, IsBad, IsBadOrFault, LieOn, wrong, fuel};

use crate::map::MapRange;
use crate::node_walker::NodeWalker;
use crate::tree::{NodeEntry, NodePointer, Owners, Tree};
use crate::walker::{LeafCursor, TreeWalker};
use btr_node::{BlockSource, BtrAnswer, BtrRefusal, BtrRule, Key, LeafView, Memory};
use std::alloc::Global;

impl TreeWalker {
    /// A walk that has not begun. Memory is taken here alone: a buffer for one node, and a stack with room for all children
    /// of one node on each level.
    pub fn new(alloc: Global, tree: Tree) -> Result<TreeWalker, Memory>
        requires size { IsNodeSize tree.form.nodesize }
        requires high { tree.root.level ≤ 7 }
        ensures walks { IfOk result (λ w. (image : Image) (ranges : List RangeOf) → Walks w image ranges []) }
        ensures tree { IfOk result (λ w. w.tree ≡ tree) }
        ensures fresh { IfOk result (λ w. w.spent ≡ false) }
    {
        Ok(TreeWalker {
            tree,
            nodes: NodeWalker::new(alloc, tree, Owners::Own)?,
            address: 0,
            at: LeafCursor { next: 0, left: 0 },
            last: None,
            spent: false,
        })
    }

    /// Whether the walk ended with an error.
    pub fn spent(&self) -> bool
        ensures { result ≡ self.now.spent }
    {
        self.spent
    }

    /// Takes the next node.
    fn take_node(&mut self) -> Option<NodeEntry>
        requires done { self.old.at.left ≡ 0 }
        ensures takes { (image : Image) (ranges : List RangeOf) (given : List TreeItem) → Walks self.old image ranges given →
            TakesNode result self.old.tree self.new image ranges given }
        ensures tree { self.new.tree ≡ self.old.tree }
        ensures kept_on { self.new.spent ≡ self.old.spent }
        ensures emptied { IfSome result (λ _. (self.new.at.next ≡ 0) × (self.new.at.left ≡ 0)) }
        ensures room { IfSome result (HasRoom self.new.nodes) }
        ensures weight { IfSome result (λ e. weight self.new.nodes.tree.form.nodesize e.pointer.level + fuel self.new ≡ fuel self.old) }
    {
        let entry = self.nodes.take()?;
        self.at = LeafCursor { next: 0, left: 0 };
        Some(entry)
    }

    /// Takes the items of the node that was opened in hand, if it is a leaf.
    fn enter(&mut self, p: &NodePointer)
        requires next { self.old.at.next ≡ 0 }
        requires left { self.old.at.left ≡ 0 }
        requires layout { p.now.level ≡ 0 → HasLeafLayout self.old.nodes.bytes.items }
        ensures enters { (image : Image) (ranges : List RangeOf) (given : List TreeItem) → IsIn p.now self.old image ranges given → Walks self.new image ranges given }
        ensures tree { self.new.tree ≡ self.old.tree }
        ensures kept_on { self.new.spent ≡ self.old.spent }
        ensures nodes { self.new.nodes ≡ self.old.nodes }
        ensures few { p.now.level ≡ 0 → self.new.at.left ≤ self.old.nodes.tree.form.nodesize }
        ensures none { 1 ≤ p.now.level → self.new.at.left ≡ 0 }
    {
        if p.level == 0 {
            let left = LeafView::of(self.nodes.bytes()).count();
            self.address = p.address;
            self.at = LeafCursor { next: 0, left };
        }
    }

    /// Goes into the next node. False after the last.
    fn descend<S: BlockSource>(
        &mut self,
        src: &mut S,
        ranges: &[MapRange],
    ) -> Result<bool, BtrAnswer>
        requires done { self.old.at.left ≡ 0 }
        requires inside { LieOn (S.size src.old) ranges.now }
        ensures kept { S.kept src.old src.new }
        ensures cause { HasCauseOf BtrAnswer.Fault (S.faults src.old) (S.faults src.new) result }
        ensures answers { IfErr result IsBadOrFault }
        ensures tree { self.new.tree ≡ self.old.tree }
        ensures kept_on { self.new.spent ≡ self.old.spent }
        ensures moves { IsTrue S.tells → (given : List TreeItem) → Walks self.old (S.blocks src.old) ranges.now given →
            MatchResult result (λ more. Moves more self.old.tree self.new (S.blocks src.old) ranges.now given) (Blames (wrong (S.blocks src.old) ranges.now self.old.tree)) }
        ensures ends { IfOk result (λ more. IsTrue more → fuel self.new < fuel self.old) }
    {
        let entry = match self.take_node() {
            Some(entry) => entry,
            None => return Ok(false),
        };
        self.nodes.open(src, ranges, &entry)?;
        self.enter(&entry.pointer);
        Ok(true)
    }

    /// Takes the next item of the leaf in hand.
    fn take_item(&mut self) -> Result<(), BtrRefusal>
        requires left { 0 < self.old.at.left }
        ensures comes { (image : Image) (ranges : List RangeOf) (given : List TreeItem) → Walks self.old image ranges given →
            MatchResult result (λ _. Comes true self.old.tree self.new image ranges given) (λ r. Contains (wrong image ranges self.old.tree) r) }
        ensures stands { OnOk result (HasItem self.new) }
        ensures bad { IfErr result IsBad }
        ensures tree { self.new.tree ≡ self.old.tree }
        ensures kept_on { self.new.spent ≡ self.old.spent }
        ensures ends { OnOk result (fuel self.new < fuel self.old) }
    {
        let key = LeafView::of(self.nodes.bytes()).key(self.at.next);
        if !is_above(&self.last, &key) {
            return Err(BtrRefusal::BadBtrfs {
                address: self.address,
                rule: BtrRule::KeyOrder,
            });
        }
        self.last = Some(key);
        self.at = LeafCursor {
            next: self.at.next + 1,
            left: self.at.left - 1,
        };
        Ok(())
    }

    /// Goes on to the next item. False after the last, of a tree with which nothing is wrong.
    fn step<S: BlockSource>(&mut self, src: &mut S, ranges: &[MapRange]) -> Result<bool, BtrAnswer>
        requires inside { LieOn (S.size src.old) ranges.now }
        ensures kept { S.kept src.old src.new }
        ensures cause { HasCauseOf BtrAnswer.Fault (S.faults src.old) (S.faults src.new) result }
        ensures answers { IfErr result IsBadOrFault }
        ensures tree { self.new.tree ≡ self.old.tree }
        ensures kept_on { self.new.spent ≡ self.old.spent }
        ensures stands { IfOk result (λ more. IsTrue more → HasItem self.new) }
        ensures ends { IfOk result (λ more. IsTrue more → fuel self.new < fuel self.old) }
        ensures comes { OverTold S.tells (S.blocks src.old) (λ image. (given : List TreeItem) → Walks self.old image ranges.now given →
            MatchResult result (λ more. Comes more self.old.tree self.new image ranges.now given) (Blames (wrong image ranges.now self.old.tree))) }
    {
        while self.at.left == 0 {
            if !self.descend(src, ranges)? {
                return Ok(false);
            }
        }
        match self.take_item() {
            Ok(()) => Ok(true),
            Err(refusal) => Err(BtrAnswer::Refused(refusal)),
        }
    }

    /// Goes on to the next item of the tree, whose nodes lie by `ranges`. False after the last, of a tree with which
    /// nothing is wrong. After an error the walk is spent.
    pub fn advance<S: BlockSource>(
        &mut self,
        src: &mut S,
        ranges: &[MapRange],
    ) -> Result<bool, BtrAnswer>
        requires fresh { self.old.spent ≡ false }
        requires inside { LieOn (S.size src.old) ranges.now }
        ensures kept { S.kept src.old src.new }
        ensures cause { HasCauseOf BtrAnswer.Fault (S.faults src.old) (S.faults src.new) result }
        ensures answers { IfErr result IsBadOrFault }
        ensures tree { self.new.tree ≡ self.old.tree }
        ensures spent { self.new.spent ≡ is_err result }
        ensures stands { IfOk result (λ more. IsTrue more → HasItem self.new) }
        // It ends, whatever the source gives.
        ensures ends { IfOk result (λ more. IsTrue more → fuel self.new < fuel self.old) }
        ensures comes { OverTold S.tells (S.blocks src.old) (λ image. (given : List TreeItem) → Walks self.old image ranges.now given →
            MatchResult result (λ more. Comes more self.old.tree self.new image ranges.now given) (Blames (wrong image ranges.now self.old.tree))) }
    {
        match self.step(src, ranges) {
            Ok(more) => Ok(more),
            Err(e) => {
                self.spent = true;
                Err(e)
            }
        }
    }

    /// The key of the item that stands.
    pub fn key(&self) -> Key
        requires { HasItem self.now }
        ensures { (i : TreeItem) → StandsLast self.now i → result ≡ i.key }
    {
        LeafView::of(self.nodes.bytes()).key(self.at.next - 1)
    }

    /// The data of the item that stands, in bytes.
    pub fn body(&self) -> &[u8]
        requires { HasItem self.now }
        ensures { (i : TreeItem) → StandsLast self.now i → result.now ≡ i.body }
    {
        LeafView::of(self.nodes.bytes()).body(self.at.next - 1)
    }

    /// The address of the leaf of the item that stands.
    pub fn leaf(&self) -> u64
        requires { HasItem self.now }
        ensures { (i : TreeItem) → StandsLast self.now i → result ≡ i.leaf }
    {
        self.address
    }
}

/// Whether a key is above the last one.
fn is_above(last: &Option<Key>, key: &Key) -> bool
    ensures { result ≡ is_above last.now key.now }
{
    match last {
        Some(last) => last.is_before(key),
        None => true,
    }
}
