ghost use Rattle.std.specs.Prelude.{◌≡◌, ◌≤◌, ◌<◌, ◌++◌, ◌∷◌, [], ℕ, List, Bool, length, false, Some, IsTrue, IfOk, IfErr, IfSome};
ghost use Rattle.std.specs.Result.{MatchResult};
ghost use Rattle.reiser_volume_objects.specs.outside.Fault.{HasCauseOf};
ghost use Rattle.reiser_volume_objects.specs.outside.History.{Image, OverTold};
ghost use Rattle.reiser_volume_objects.specs.reiser_walk.Items.{ReiserItem};
ghost use Rattle.reiser_volume_objects.specs.reiser_walk.declared.reiser_tree.ReiserTree.{ReiserTree};
ghost use Rattle.reiser_volume_objects.specs.Table.{HasNoted};
ghost use Rattle.reiser_volume_contents.specs.Answers.{IsReadAnswer, IsFault, NamesLeaf};
ghost use Rattle.reiser_volume_contents.specs.Holds.{HoldsObject, object_items};
ghost use Rattle.reiser_volume_contents.specs.Reads.{Reads, StandsFrom, Starts, Comes, Fills, Looks, HasItem, standing, fuel, object_order};

use crate::ObjectItems;
use crate::leaf::{LeafInHand, NodeCursor};
use reiser_volume_objects::{
    BlockNo, BlockSource, ItemHead, LeafList, LeafView, ObjectKey, Objects, VolAnswer,
};
use std::cmp::Ordering;

impl ObjectItems {
    /// A reader that has read nothing, of the items of an object.
    pub fn new(objects: &Objects, key: ObjectKey) -> ObjectItems
        ensures key { result.key ≡ key }
        ensures from { (items : List ReiserItem) → HasNoted objects.now items → (first : ℕ) × Starts key items objects.now.leaves first × StandsFrom first objects.now.leaves result }
        ensures begins { (tree : ReiserTree) (image : Image) (used : List Bool) → HoldsObject objects.now key tree image used →
            Reads result objects.now.leaves image [] (object_items tree image used key) }
    {
        ObjectItems {
            key,
            place: start(objects, key),
            leaf: LeafInHand::none(),
        }
    }

    /// Goes on to the next item of the object: true where it stands now, and false after the last.
    ///
    /// The leaves are those of the objects that the reader is of. A refusal names a block that is no leaf of the volume
    /// any more: the device was changed since the walk. Nothing is said of a reader after false or an error.
    pub fn advance<S: BlockSource>(
        &mut self,
        src: &mut S,
        leaves: &LeafList,
    ) -> Result<bool, VolAnswer>
        ensures kept { S.kept src.old src.new }
        ensures cause { HasCauseOf VolAnswer.Fault (S.faults src.old) (S.faults src.new) result }
        ensures answers { IfErr result IsReadAnswer }
        ensures names { (first : ℕ) → StandsFrom first leaves.now self.old → IfErr result (NamesLeaf first leaves.now) }
        ensures from { (first : ℕ) → StandsFrom first leaves.now self.old → IfOk result (λ _. StandsFrom first leaves.now self.new) }
        ensures key { self.new.key ≡ self.old.key }
        ensures stands { IfOk result (λ more. IsTrue more → HasItem self.new) }
        // It ends, whatever the source gives.
        ensures ends { IfOk result (λ more. IsTrue more → fuel leaves.now self.new < fuel leaves.now self.old) }
        ensures comes { OverTold S.tells (S.blocks src.old) (λ image. (given items : List ReiserItem) → Reads self.old leaves.now image given items →
            MatchResult result (λ more. Comes more self.new leaves.now image given items) IsFault) }
    {
        while self.fill(src, leaves)? {
            match self.look() {
                Ordering::Less => {}
                Ordering::Equal => return Ok(true),
                Ordering::Greater => return Ok(false),
            }
        }
        Ok(false)
    }

    /// Reads the next leaf, if nothing of the leaf in hand is to come. False after the last leaf.
    fn fill<S: BlockSource>(&mut self, src: &mut S, leaves: &LeafList) -> Result<bool, VolAnswer>
        ensures kept { S.kept src.old src.new }
        ensures cause { HasCauseOf VolAnswer.Fault (S.faults src.old) (S.faults src.new) result }
        ensures answers { IfErr result IsReadAnswer }
        ensures names { (first : ℕ) → StandsFrom first leaves.now self.old → IfErr result (NamesLeaf first leaves.now) }
        ensures from { (first : ℕ) → StandsFrom first leaves.now self.old → IfOk result (λ _. StandsFrom first leaves.now self.new) }
        ensures key { self.new.key ≡ self.old.key }
        ensures left { IfOk result (λ more. IsTrue more → 0 < self.new.leaf.at.left) }
        ensures fuel { fuel leaves.now self.new ≤ fuel leaves.now self.old }
        ensures fills { OverTold S.tells (S.blocks src.old) (λ image. (given items : List ReiserItem) → Reads self.old leaves.now image given items →
            MatchResult result (λ more. Fills more self.new leaves.now image given items) IsFault) }
    {
        if self.leaf.at.left > 0 {
            return Ok(true);
        }
        if self.place >= leaves.len() {
            return Ok(false);
        }
        self.leaf = LeafInHand::read(src, leaves.get(self.place))?;
        self.place += 1;
        Ok(true)
    }

    /// Looks at the next item of the leaf in hand: how it compares with the object.
    fn look(&mut self) -> Ordering
        requires left { 0 < self.old.leaf.at.left }
        ensures key { self.new.key ≡ self.old.key }
        ensures stands { HasItem self.new }
        ensures from { (first : ℕ) (leaves : List ℕ) → StandsFrom first leaves self.old → StandsFrom first leaves self.new }
        ensures fuel { (leaves : List ℕ) → fuel leaves self.new < fuel leaves self.old }
        ensures looks { (leaves : List ℕ) (image : Image) (given items : List ReiserItem) → Reads self.old leaves image given items → Looks result self.new leaves image given items }
    {
        let head = LeafView::of(&self.leaf.block).head(self.leaf.at.next);
        self.leaf.at = NodeCursor {
            next: self.leaf.at.next + 1,
            left: self.leaf.at.left - 1,
        };
        object_order(&head, self.key)
    }

    /// The head of the item that stands.
    pub fn head(&self) -> ItemHead
        requires stands { HasItem self.now }
        ensures { IfSome (standing self.now) (λ i. result ≡ i.head) }
    {
        LeafView::of(&self.leaf.block).head(self.leaf.at.next - 1)
    }

    /// The body of the item that stands.
    pub fn body(&self) -> &[u8]
        requires stands { HasItem self.now }
        ensures { IfSome (standing self.now) (λ i. result.now ≡ i.body) }
    {
        LeafView::of(&self.leaf.block).body(self.leaf.at.next - 1)
    }

    /// The block of the leaf that holds the item that stands.
    pub fn leaf(&self) -> BlockNo
        requires stands { HasItem self.now }
        ensures item { IfSome (standing self.now) (λ i. result ≡ i.leaf) }
        ensures no { result ≡ self.now.leaf.no }
    {
        self.leaf.no
    }
}

/// The number of the leaf that is read first.
fn start(objects: &Objects, key: ObjectKey) -> usize
    ensures { (items : List ReiserItem) → HasNoted objects.now items → Starts key items objects.now.leaves result }
{
    match objects.first_leaf(key) {
        Some(place) => place,
        None => objects.leaves.len(),
    }
}

/// How an item compares with an object, by the numbers of its key.
fn object_order(head: &ItemHead, key: ObjectKey) -> Ordering
    ensures { result ≡ object_order head.now key }
{
    head.dir.cmp(&key.dir).then(head.object.cmp(&key.object))
}
