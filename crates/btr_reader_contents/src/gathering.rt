ghost use Rattle.std.specs.Prelude.{◌≡◌, ◌≤◌, ◌++◌, ◌∷◌, [], true, nat_eq, ℕ, Option, Some, None, List, IsTrue, IfSome, IfOk, OnOk, if◌then◌else◌};
ghost use Rattle.std.specs.Result.{MatchResult};
ghost use Rattle.indexmap.specs.IndexMap.{get};
ghost use Rattle.btr_reader_walk.specs.outside.Fault.{HasCauseOf};
ghost use Rattle.btr_reader_walk.specs.outside.History.{Image, OverTold};
ghost use Rattle.btr_reader_walk.specs.declared.map.MapRange.{MapRange as RangeOf};
ghost use Rattle.btr_reader_walk.specs.Events.{TreeItem};
ghost use Rattle.btr_reader_walk.specs.Walks.{LieOn};
ghost use Rattle.btr_reader_contents.specs.Blocks.{AreInBlocks};
ghost use Rattle.btr_reader_contents.specs.Contents.{content_in, HasContents, RefusesExtents};
ghost use Rattle.btr_reader_contents.specs.Gathering.{item_wanted, HoldsHand, HasGathered};
ghost use Rattle.btr_reader_contents.specs.declared.wanted.Wanted.{Wanted as WantedOf};

use crate::hand::Hand;
use crate::wanted::Wanted;
use btr_reader_walk::{BlockSource, BtrAnswer, Key, MapRange, Memory};
use fs_rows::Content;
use indexmap::IndexMap;
use std::alloc::Global;

/// The contents that are finished, and the one in hand.
#[derive(Drop)]
pub struct Gathering {
    pub done: IndexMap<u64, Content>,
    pub hand: Option<Hand>,
}

impl Gathering {
    /// Nothing.
    pub fn new(alloc: Global) -> Gathering
        ensures { (plan : ℕ → Option WantedOf) (image : Image) (ranges : List RangeOf) → HasGathered plan image ranges [] 0 (λ ino. get nat_eq result.done ino) result.hand }
    {
        Gathering {
            done: IndexMap::new(alloc),
            hand: None,
        }
    }

    /// Adds the next item, if it is an extent of what is wanted.
    pub fn add_item<S: BlockSource>(
        &mut self,
        alloc: Global,
        src: &mut S,
        ranges: &[MapRange],
        wanted: Option<Wanted>,
        key: &Key,
        body: &[u8],
        leaf: u64,
    ) -> Result<(), BtrAnswer>
        requires inside { LieOn (S.size src.old) ranges.now }
        requires short { IfSome wanted (λ w. w.link ≡ true → w.size ≤ 4095) }
        ensures kept { S.kept src.old src.new }
        ensures cause { HasCauseOf BtrAnswer.Fault (S.faults src.old) (S.faults src.new) result }
        ensures adds { OverTold S.tells (S.blocks src.old) (λ image. AreInBlocks ranges.now → (plan : ℕ → Option WantedOf) (given : List TreeItem) (i : TreeItem) (top : ℕ) →
            i.key ≡ key.now → i.body ≡ body.now → i.leaf ≡ leaf → wanted ≡ item_wanted plan i.key → top ≤ i.key.objectid →
            HasGathered plan image ranges.now given top (λ ino. get nat_eq self.old.done ino) self.old.hand →
            MatchResult result (λ _. HasGathered plan image ranges.now (given ++ i ∷ []) i.key.objectid (λ ino. get nat_eq self.new.done ino) self.new.hand) (RefusesExtents plan ranges.now (given ++ i ∷ []))) }
    {
        match wanted {
            Some(wanted) => self.add_extent(alloc, src, ranges, wanted, key, body, leaf),
            None => Ok(()),
        }
    }

    /// Adds the next item, which is an extent of this inode.
    fn add_extent<S: BlockSource>(
        &mut self,
        alloc: Global,
        src: &mut S,
        ranges: &[MapRange],
        wanted: Wanted,
        key: &Key,
        body: &[u8],
        leaf: u64,
    ) -> Result<(), BtrAnswer>
        requires inside { LieOn (S.size src.old) ranges.now }
        requires short { wanted.link ≡ true → wanted.size ≤ 4095 }
        ensures kept { S.kept src.old src.new }
        ensures cause { HasCauseOf BtrAnswer.Fault (S.faults src.old) (S.faults src.new) result }
        ensures adds { OverTold S.tells (S.blocks src.old) (λ image. AreInBlocks ranges.now → (plan : ℕ → Option WantedOf) (given : List TreeItem) (i : TreeItem) (top : ℕ) →
            i.key ≡ key.now → i.body ≡ body.now → i.leaf ≡ leaf → Some wanted ≡ item_wanted plan i.key → top ≤ i.key.objectid →
            HasGathered plan image ranges.now given top (λ ino. get nat_eq self.old.done ino) self.old.hand →
            MatchResult result (λ _. HasGathered plan image ranges.now (given ++ i ∷ []) i.key.objectid (λ ino. get nat_eq self.new.done ino) self.new.hand) (RefusesExtents plan ranges.now (given ++ i ∷ []))) }
    {
        let mut hand = take_up(
            &mut self.done,
            alloc,
            self.hand.take(),
            key.objectid,
            wanted,
        )?;
        hand.add(src, ranges, key, body, leaf)?;
        self.hand = Some(hand);
        Ok(())
    }

    /// The contents, when all items were given.
    pub fn finish(self, alloc: Global) -> Result<IndexMap<u64, Content>, Memory>
        ensures { (plan : ℕ → Option WantedOf) (image : Image) (ranges : List RangeOf) (given : List TreeItem) (top : ℕ) → HasGathered plan image ranges given top (λ ino. get nat_eq self.done ino) self.hand →
            IfOk result (λ done. HasContents plan image ranges given (λ ino. get nat_eq done ino)) }
    {
        let mut done = self.done;
        match self.hand {
            Some(hand) => {
                close(&mut done, alloc, hand)?;
                Ok(done)
            }
            None => Ok(done),
        }
    }
}

/// The file of this inode in hand. If another one was, that is finished.
fn take_up(
    done: &mut IndexMap<u64, Content>,
    alloc: Global,
    hand: Option<Hand>,
    ino: u64,
    wanted: Wanted,
) -> Result<Hand, Memory>
    requires short { wanted.link ≡ true → wanted.size ≤ 4095 }
    ensures ino { IfOk result (λ h. h.ino ≡ ino) }
    ensures gathered { (plan : ℕ → Option WantedOf) (image : Image) (ranges : List RangeOf) (given : List TreeItem) (top : ℕ) → plan ino ≡ Some wanted → top ≤ ino →
        HasGathered plan image ranges given top (λ other. get nat_eq done.old other) hand →
        IfOk result (λ h. HasGathered plan image ranges given ino (λ other. get nat_eq done.new other) (Some h)) }
{
    match hand {
        Some(hand) => go_on(done, alloc, hand, ino, wanted),
        None => Ok(Hand::new(ino, wanted)),
    }
}

/// The same, where a file is in hand.
fn go_on(
    done: &mut IndexMap<u64, Content>,
    alloc: Global,
    hand: Hand,
    ino: u64,
    wanted: Wanted,
) -> Result<Hand, Memory>
    requires short { wanted.link ≡ true → wanted.size ≤ 4095 }
    ensures ino { IfOk result (λ h. h.ino ≡ ino) }
    ensures gathered { (plan : ℕ → Option WantedOf) (image : Image) (ranges : List RangeOf) (given : List TreeItem) (top : ℕ) → plan ino ≡ Some wanted → top ≤ ino →
        HasGathered plan image ranges given top (λ other. get nat_eq done.old other) (Some hand) →
        IfOk result (λ h. HasGathered plan image ranges given ino (λ other. get nat_eq done.new other) (Some h)) }
{
    if hand.ino == ino {
        return Ok(hand);
    }
    close(done, alloc, hand)?;
    Ok(Hand::new(ino, wanted))
}

/// Keeps the content of a file that has all its extents.
fn close(done: &mut IndexMap<u64, Content>, alloc: Global, hand: Hand) -> Result<(), Memory>
    ensures { (plan : ℕ → Option WantedOf) (image : Image) (ranges : List RangeOf) (given : List TreeItem) → HoldsHand plan image ranges given hand →
        OnOk result ((ino : ℕ) → get nat_eq done.new ino ≡ (if nat_eq hand.ino ino then Some (content_in image ranges given hand.ino hand.wanted) else get nat_eq done.old ino)) }
{
    let ino = hand.ino;
    let content = hand.finish(alloc)?;
    keep(done, ino, content)
}

fn keep(done: &mut IndexMap<u64, Content>, number: u64, content: Content) -> Result<(), Memory>
    ensures { OnOk result ((ino : ℕ) → get nat_eq done.new ino ≡ (if nat_eq number ino then Some content else get nat_eq done.old ino)) }
{
    done.insert(number, content)?;
    Ok(())
}
