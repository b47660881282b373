ghost use Rattle.std.specs.Prelude.{◌≡◌, ◌≤◌, ◌<◌, ◌+◌, ◌-◌, ◌++◌, ℕ, ◌∷◌, [], List, true, false, length, Contains, Ok, Some, None, IsTrue, IfOk, IfErr, IfSome, IfNone, OnSome, OnOk, OnErr};
ghost use Rattle.std.specs.Result.{MatchResult};
ghost use Rattle.reiser_bitmap.specs.outside.Fault.{HasCauseOf};
ghost use Rattle.reiser_bitmap.specs.outside.History.{Image, OverTold};
ghost use Rattle.reiser_bitmap.specs.refusals.declared.rule.Rule.TheVariants.{KeyOrder, Body};
ghost use Rattle.reiser_items.specs.reiser_node.declared.head.ItemHead.{ItemHead};
ghost use Rattle.reiser_items.specs.reiser_node.Head.{head_at};
ghost use Rattle.reiser_items.specs.reiser_node.Leaf.{head_place, body_at};
ghost use Rattle.reiser_walk.specs.declared.block_pointer.BlockPointer.{BlockPointer};
ghost use Rattle.reiser_walk.specs.declared.reiser_tree.ReiserTree.{ReiserTree};
ghost use Rattle.reiser_walk.specs.Answers.{IsTreeAnswer, IsTreeRefusal, BlamesDamage};
ghost use Rattle.reiser_walk.specs.Bodies.{is_body};
ghost use Rattle.reiser_walk.specs.Items.{ReiserItem};
ghost use Rattle.reiser_walk.specs.Marks.{unmarked};
ghost use Rattle.reiser_walk.specs.Rules.{unless, is_above, tree_damages};
ghost use Rattle.reiser_walk.specs.Tree.{node_events};
ghost use Rattle.reiser_walk.specs.Walks.{Walks, Moves, TakesPointer, IsDone, Comes, HasItem, block_count, fuel, standing, pending, level_of};

use crate::Walker;
use crate::block_pointer::BlockPointer;
use crate::bodies::{is_above, is_body};
use crate::claim::{claim, claim_named};
use crate::hand::{LeafInHand, NodeCursor};
use crate::path::next_child;
use crate::reiser_tree::ReiserTree;
use reiser_bitmap::reiserfs_format::block::SUPER_BLOCK;
use reiser_bitmap::{Bitmap, BlockSource, Fault, Memory, Rule, VolAnswer, VolumeRefusal};
use reiser_items::{Block, BlockNo, ItemHead, LeafView};
use std::alloc::Global;

/// How many inner nodes lie above a leaf at most.
const DEPTH: usize = 5;

impl Walker {
    /// A walk that has not begun, over the tree of a volume with this bitmap. The root has the level `height` - 1; the
    /// journal's log has `journal_size` blocks from `journal_first` on, and its header lies behind it.
    ///
    /// All memory of the walk is taken here: a bit for each block, a leaf, and a path of at most 5 inner nodes.
    pub fn new(
        alloc: Global,
        map: &Bitmap,
        root: u64,
        height: u16,
        journal_first: u64,
        journal_size: u64,
    ) -> Result<Walker, Memory>
        requires root { root < length map.now }
        requires low { 2 ≤ height }
        requires high { height ≤ 7 }
        requires journal { journal_first + journal_size < length map.now }
        ensures walks { IfOk result (λ w. (image : Image) → Walks w image map.now []) }
        ensures tree { IfOk result (λ w. w.tree ≡ record { root = root; height = height; journal_first = journal_first; journal_size = journal_size }) }
        ensures size { IfOk result (λ w. block_count w ≡ length map.now) }
        ensures unspent { IfOk result (λ w. w.spent ≡ false) }
    {
        Ok(Walker {
            tree: ReiserTree {
                root,
                height,
                journal_first,
                journal_size,
            },
            reached: Bitmap::new(alloc, map.len())?,
            at_start: true,
            path: Vec::with_capacity(alloc, DEPTH)?,
            leaf: LeafInHand {
                no: 0,
                block: Block::zero(),
                at: NodeCursor { next: 0, left: 0 },
            },
            last: None,
            spent: false,
        })
    }

    /// Takes the next node off what is pending.
    fn next_pointer(&mut self) -> Option<BlockPointer>
        ensures next { IfSome result (λ p. (image : Image) (n : ℕ) →
            pending image n self.old ≡ node_events image n (level_of self.new) p.holder p.block ++ pending image n self.new) }
        ensures none { IfNone result ((image : Image) (n : ℕ) → (pending image n self.old ≡ []) × (pending image n self.new ≡ [])) }
        ensures done { self.old.leaf.at.left ≡ 0 → IfNone result (IsDone self.new) }
        ensures again { IsDone self.old → result ≡ None }
        ensures tree { self.new.tree ≡ self.old.tree }
        ensures reached { self.new.reached ≡ self.old.reached }
        ensures leaf { self.new.leaf ≡ self.old.leaf }
        ensures last { self.new.last ≡ self.old.last }
        ensures spent { self.new.spent ≡ self.old.spent }
    {
        if let Some(child) = next_child(&mut self.path) {
            return Some(child);
        }
        if !self.at_start {
            return None;
        }
        self.at_start = false;
        Some(BlockPointer {
            block: self.tree.root,
            holder: SUPER_BLOCK,
        })
    }

    /// Takes the next node off what is pending, and marks it.
    fn take_pointer(&mut self, map: &Bitmap) -> Result<Option<BlockPointer>, VolumeRefusal>
        requires done { self.old.leaf.at.left ≡ 0 }
        requires same { block_count self.old ≡ length map.now }
        ensures takes { (image : Image) (given : List ReiserItem) → Walks self.old image map.now given →
            MatchResult result (λ found. TakesPointer found self.old.tree self.new image map.now given) (Contains (tree_damages self.old.tree image map.now)) }
        ensures rules { IfErr result IsTreeRefusal }
        ensures done { IfOk result (λ found. IfNone found (IsDone self.new)) }
        ensures again { IsDone self.old → result ≡ Ok None }
        ensures tree { self.new.tree ≡ self.old.tree }
        ensures size { block_count self.new ≡ block_count self.old }
        ensures leaf { self.new.leaf ≡ self.old.leaf }
        ensures spent { self.new.spent ≡ self.old.spent }
        ensures within { IfOk result (λ found. IfSome found (λ p. p.block < length map.now)) }
        ensures fewer { IfOk result (λ found. OnSome found (unmarked self.new.reached < unmarked self.old.reached)) }
    {
        let Some(pointer) = self.next_pointer() else {
            return Ok(None);
        };
        match claim(&mut self.reached, &self.tree, map, pointer) {
            Ok(()) => Ok(Some(pointer)),
            Err(e) => Err(e),
        }
    }

    /// Opens the next node. False after the last.
    fn descend<S: BlockSource>(&mut self, src: &mut S, map: &Bitmap) -> Result<bool, VolAnswer>
        requires done { self.old.leaf.at.left ≡ 0 }
        requires same { block_count self.old ≡ length map.now }
        requires source { length map.now ≤ S.size src.old }
        ensures kept { S.kept src.old src.new }
        ensures cause { HasCauseOf VolAnswer.Fault (S.faults src.old) (S.faults src.new) result }
        ensures answers { IfErr result IsTreeAnswer }
        ensures tree { self.new.tree ≡ self.old.tree }
        ensures size { block_count self.new ≡ block_count self.old }
        ensures spent { self.new.spent ≡ self.old.spent }
        ensures moves { OverTold S.tells (S.blocks src.old) (λ image. (given : List ReiserItem) → Walks self.old image map.now given →
            MatchResult result (λ more. Moves more self.old.tree self.new image map.now given) (BlamesDamage self.old.tree image map.now)) }
        ensures ends { IfOk result (λ more. IsTrue more → fuel self.new < fuel self.old) }
        ensures done { IfOk result (λ more. (more ≡ false) → IsDone self.new) }
        ensures again { IsDone self.old → (result ≡ Ok false) × (src.new ≡ src.old) }
    {
        let pointer = match self.take_pointer(map) {
            Ok(Some(pointer)) => pointer,
            Ok(None) => return Ok(false),
            Err(e) => return Err(VolAnswer::Refused(e)),
        };
        self.await_block(pointer.block);
        match src.read(pointer.block, &mut self.leaf.block) {
            Ok(()) => {}
            Err(Fault) => return Err(VolAnswer::Fault),
        }
        match self.open() {
            Ok(()) => Ok(true),
            Err(e) => Err(VolAnswer::Refused(e)),
        }
    }

    /// Looks at the next item of the leaf in hand.
    fn check_item(&self) -> Result<ItemHead, VolumeRefusal>
        requires { 0 < self.now.leaf.at.left }
        ensures head { IfOk result (λ head. head_at self.now.leaf.block.bytes (head_place self.now.leaf.at.next) ≡ Some head) }
        ensures above { IfOk result (λ head. is_above self.now.last head ≡ true) }
        ensures body { IfOk result (λ head. is_body head (body_at self.now.leaf.block.bytes self.now.leaf.at.next) ≡ true) }
        ensures damage { IfErr result (λ e. (head : ItemHead) × (head_at self.now.leaf.block.bytes (head_place self.now.leaf.at.next) ≡ Some head)
            × Contains (unless (is_above self.now.last head) self.now.leaf.no KeyOrder
            ++ unless (is_body head (body_at self.now.leaf.block.bytes self.now.leaf.at.next)) self.now.leaf.no Body) e) }
        ensures rules { IfErr result IsTreeRefusal }
    {
        let leaf = LeafView::of(&self.leaf.block);
        let head = leaf.head(self.leaf.at.next);
        if !is_above(&self.last, &head) {
            return Err(VolumeRefusal::Damaged {
                block: self.leaf.no,
                rule: Rule::KeyOrder,
            });
        }
        if !is_body(&head, leaf.body(self.leaf.at.next)) {
            return Err(VolumeRefusal::Damaged {
                block: self.leaf.no,
                rule: Rule::Body,
            });
        }
        Ok(head)
    }

    /// Takes the next item off the leaf in hand.
    fn take_item(&mut self, map: &Bitmap) -> Result<(), VolumeRefusal>
        requires left { 0 < self.old.leaf.at.left }
        requires same { block_count self.old ≡ length map.now }
        ensures comes { (image : Image) (given : List ReiserItem) → Walks self.old image map.now given →
            MatchResult result (λ _. Comes true self.old.tree self.new image map.now given) (Contains (tree_damages self.old.tree image map.now)) }
        ensures stands { OnOk result (HasItem self.new) }
        ensures ends { OnOk result (fuel self.new < fuel self.old) }
        ensures rules { IfErr result IsTreeRefusal }
        ensures tree { self.new.tree ≡ self.old.tree }
        ensures size { block_count self.new ≡ block_count self.old }
        ensures spent { self.new.spent ≡ self.old.spent }
    {
        let head = match self.check_item() {
            Ok(head) => head,
            Err(e) => return Err(e),
        };
        match claim_named(
            &mut self.reached,
            &self.tree,
            map,
            &head,
            LeafView::of(&self.leaf.block).body(self.leaf.at.next),
            self.leaf.no,
        ) {
            Ok(()) => {}
            Err(e) => return Err(e),
        }
        self.last = Some(head);
        self.leaf.at = NodeCursor {
            next: self.leaf.at.next + 1,
            left: self.leaf.at.left - 1,
        };
        Ok(())
    }

    /// Goes on to the next item, as `advance` does, but for what `spent` tells.
    fn step<S: BlockSource>(&mut self, src: &mut S, map: &Bitmap) -> Result<bool, VolAnswer>
        requires same { block_count self.old ≡ length map.now }
        requires source { length map.now ≤ S.size src.old }
        ensures kept { S.kept src.old src.new }
        ensures cause { HasCauseOf VolAnswer.Fault (S.faults src.old) (S.faults src.new) result }
        ensures answers { IfErr result IsTreeAnswer }
        ensures tree { self.new.tree ≡ self.old.tree }
        ensures size { block_count self.new ≡ block_count self.old }
        ensures spent { self.new.spent ≡ self.old.spent }
        ensures stands { IfOk result (λ more. IsTrue more → HasItem self.new) }
        ensures ends { IfOk result (λ more. IsTrue more → fuel self.new < fuel self.old) }
        ensures done { IfOk result (λ more. (more ≡ false) → IsDone self.new) }
        ensures again { IsDone self.old → (result ≡ Ok false) × (src.new ≡ src.old) }
        ensures comes { OverTold S.tells (S.blocks src.old) (λ image. (given : List ReiserItem) → Walks self.old image map.now given →
            MatchResult result (λ more. Comes more self.old.tree self.new image map.now given) (BlamesDamage self.old.tree image map.now)) }
    {
        while self.leaf.at.left == 0 {
            match self.descend(src, map) {
                Ok(true) => {}
                Ok(false) => return Ok(false),
                Err(e) => return Err(e),
            }
        }
        match self.take_item(map) {
            Ok(()) => Ok(true),
            Err(e) => Err(VolAnswer::Refused(e)),
        }
    }

    /// Goes on to the next item of the tree: true where it stands now, and false after the last.
    ///
    /// The bitmap is that of `new`, and the source has at least as many blocks. False comes only where the tree keeps
    /// each rule, and comes again at each further call, which reads nothing. The error is a rule of the tree that
    /// fails, with its block, or a fault of the source; after it the walker is spent, and no call may follow.
    pub fn advance<S: BlockSource>(&mut self, src: &mut S, map: &Bitmap) -> Result<bool, VolAnswer>
        requires unspent { self.old.spent ≡ false }
        requires same { block_count self.old ≡ length map.now }
        requires source { length map.now ≤ S.size src.old }
        ensures kept { S.kept src.old src.new }
        ensures cause { HasCauseOf VolAnswer.Fault (S.faults src.old) (S.faults src.new) result }
        ensures answers { IfErr result IsTreeAnswer }
        ensures tree { self.new.tree ≡ self.old.tree }
        ensures size { block_count self.new ≡ block_count self.old }
        ensures unspent { OnOk result (self.new.spent ≡ false) }
        ensures spent { OnErr result (self.new.spent ≡ true) }
        ensures stands { IfOk result (λ more. IsTrue more → HasItem self.new) }
        // It ends, whatever the source gives.
        ensures ends { IfOk result (λ more. IsTrue more → fuel self.new < fuel self.old) }
        ensures done { IfOk result (λ more. (more ≡ false) → IsDone self.new) }
        ensures again { IsDone self.old → (result ≡ Ok false) × (src.new ≡ src.old) }
        ensures comes { OverTold S.tells (S.blocks src.old) (λ image. (given : List ReiserItem) → Walks self.old image map.now given →
            MatchResult result (λ more. Comes more self.old.tree self.new image map.now given) (BlamesDamage self.old.tree image map.now)) }
    {
        match self.step(src, map) {
            Ok(more) => Ok(more),
            Err(e) => {
                self.spent = true;
                Err(e)
            }
        }
    }

    /// Whether a call of `advance` answered with an error.
    pub fn spent(&self) -> bool
        ensures { result ≡ self.now.spent }
    {
        self.spent
    }

    /// The head of the item that stands.
    pub fn head(&self) -> ItemHead
        requires unspent { self.now.spent ≡ false }
        requires stands { HasItem self.now }
        ensures { IfSome (standing self.now) (λ i. result ≡ i.head) }
    {
        LeafView::of(&self.leaf.block).head(self.leaf.at.next - 1)
    }

    /// The body of the item that stands.
    pub fn body(&self) -> &[u8]
        requires unspent { self.now.spent ≡ false }
        requires stands { HasItem self.now }
        ensures { IfSome (standing self.now) (λ i. result.now ≡ i.body) }
    {
        LeafView::of(&self.leaf.block).body(self.leaf.at.next - 1)
    }

    /// The block of the leaf that holds the item that stands.
    pub fn leaf(&self) -> BlockNo
        requires unspent { self.now.spent ≡ false }
        requires stands { HasItem self.now }
        ensures { IfSome (standing self.now) (λ i. result ≡ i.leaf) }
    {
        self.leaf.no
    }
}
