ghost use Rattle.std.specs.Prelude.{◌≡◌, ◌<◌, ◌≤◌, ◌+◌, ◌*◌, ◌∷◌, ◌++◌, [], List, length, take, false, IfSome, MatchOption};
ghost use Rattle.std.specs.Bool.{OnTrue};
ghost use Rattle.reiser_make.specs.Items.{items, IsSampleItem};
ghost use Rattle.reiser_make.specs.Leaf.{leaves, leaf_bytes, leaf_contents, bodies, bytes_taken, taken_by};
ghost use Rattle.reiser_make.specs.Walk.{items_behind, MayPackMore, BeginsLeaves, HasLeafRoom, IsPacked, HasPutItems, NextFits};
ghost use Rattle.reiser_make.specs.declared.sample_item.SampleItem.{SampleItem as SampleItemOf};

use crate::node::{clear, put_head, put_node_head};
use crate::object::object_count;
use crate::sample::Sample;
use crate::sample_item::SampleItem;
use reiser_items::reiserfs_format::size::{BLKH_SIZE, IH_SIZE};
use reiser_items::{Block, ItemHead};

/// The bytes of a node behind its head.
pub const NODE_ROOM: u16 = 4072;

/// A place in the list of items: before item `part` of an object.
#[derive(Clone, Copy, Debug, PartialEq, Eq)]
pub struct ItemPlace {
    object: u32,
    part: u32,
}

/// How a leaf is packed.
#[derive(Clone, Copy, Debug, PartialEq, Eq)]
pub struct Packed {
    /// The head of the first item.
    pub first: ItemHead,
    /// How many items it has.
    pub count: u16,
    /// The bytes that the items take, with their heads.
    pub used: u16,
    /// The place behind the last item.
    pub end: ItemPlace,
}

impl ItemPlace {
    /// The place before all items.
    pub fn first() -> ItemPlace
        ensures { result ≡ record { object = 0; part = 0 } }
    {
        ItemPlace { object: 0, part: 0 }
    }
}

impl Sample {
    /// The item behind a place, which moves behind it; None where there is none.
    fn next_item(&self, at: &mut ItemPlace) -> Option<SampleItem>
        ensures next { MatchOption result (items_behind self.now at.old ≡ []) (λ item. items_behind self.now at.old ≡ item ∷ items_behind self.now at.new) }
        ensures right { IfSome result (IsSampleItem self.now) }
    {
        let objects = object_count(self.number());
        while at.object < objects {
            match self.item(at.object, at.part) {
                Some(item) => {
                    at.part += 1;
                    return Some(item);
                }
                None => {
                    at.object += 1;
                    at.part = 0;
                }
            }
        }
        None
    }

    /// The leaf that begins at a place; None where no item is left.
    ///
    /// A leaf takes the next item exactly where it has room for it and its head.
    pub fn pack(&self, at: ItemPlace) -> Option<Packed>
        ensures { MatchOption result (items_behind self.now at ≡ []) (IsPacked self.now at) }
    {
        let mut end = at;
        let first = self.next_item(&mut end)?;
        let mut leaf = Packed {
            first: first.head,
            count: 1,
            used: taken_by(&first),
            end,
        };
        while self.add_next(&mut leaf) {}
        Some(leaf)
    }

    /// Adds the next item to a leaf, and answers whether there is one and the leaf had room for it.
    fn add_next(&self, leaf: &mut Packed) -> bool
        requires { HasLeafRoom leaf.old }
        ensures room { HasLeafRoom leaf.new }
        ensures more { (all : List SampleItemOf) → MayPackMore self.now all leaf.old → OnTrue result (MayPackMore self.now all leaf.new) }
        ensures done { (all : List SampleItemOf) → MayPackMore self.now all leaf.old → result ≡ false → BeginsLeaves self.now all leaf.new }
        ensures fewer { OnTrue result (length (items_behind self.now leaf.new.end) < length (items_behind self.now leaf.old.end)) }
    {
        let mut ahead = leaf.end;
        match self.next_item(&mut ahead) {
            Some(item) => {
                if taken_by(&item) > NODE_ROOM - leaf.used {
                    return false;
                }
                leaf.used += taken_by(&item);
                leaf.count += 1;
                leaf.end = ahead;
                true
            }
            None => false,
        }
    }

    /// How many leaves there are.
    pub fn count_leaves(&self) -> u32
        ensures count { result ≡ length (leaves self.now) }
        ensures some { 1 ≤ result }
        ensures most { result ≤ 12123 }
    {
        let _few = self.number();
        let mut at = ItemPlace::first();
        let mut count = 0;
        while let Some(leaf) = self.pack(at) {
            count += 1;
            at = leaf.end;
        }
        count
    }

    /// Writes the leaf that begins at a place, and is packed so, into a block.
    pub fn put_leaf(&self, at: ItemPlace, leaf: &Packed, into: &mut Block)
        requires { IsPacked self.now at leaf.now }
        ensures { into.new.bytes ≡ leaf_bytes self.now (take leaf.now.count (items_behind self.now at)) }
    {
        self.put_leaf_bytes(at, leaf, &mut into.bytes);
    }

    fn put_leaf_bytes(&self, at: ItemPlace, leaf: &Packed, into: &mut [u8])
        requires packed { IsPacked self.now at leaf.now }
        requires room { length into.old ≡ 4096 }
        ensures { into.new ≡ leaf_bytes self.now (take leaf.now.count (items_behind self.now at)) }
    {
        put_node_head(1, leaf.count, NODE_ROOM - leaf.used, &mut into[..BLKH_SIZE]);
        self.put_items(at, leaf.count, &mut into[BLKH_SIZE..]);
    }

    /// Writes so many items from a place on into the bytes of a leaf behind its head.
    fn put_items(&self, at: ItemPlace, count: u16, behind: &mut [u8])
        requires room { length behind.old ≡ 4072 }
        requires count { count ≤ length (items_behind self.now at) }
        requires fits { bytes_taken (take count (items_behind self.now at)) ≤ 4072 }
        ensures { behind.new ≡ leaf_contents self.now (take count (items_behind self.now at)) }
    {
        clear(behind);
        let mut at = at;
        let mut low = behind.len();
        for i in 0..count {
            low = self.put_next(&mut at, i as usize, low, behind);
        }
    }

    /// Writes the item behind a place as the i-th of a leaf whose bodies begin at byte `low` behind its head, and answers
    /// where they begin then.
    fn put_next(&self, at: &mut ItemPlace, i: usize, low: usize, behind: &mut [u8]) -> usize
        requires room { length behind.old ≡ 4072 }
        requires within { low ≤ 4072 }
        requires fits { NextFits (items_behind self.now at.old) i low }
        ensures { (all : List SampleItemOf) → i < length all → HasPutItems self.now all i at.old low behind.old → HasPutItems self.now all (i + 1) at.new result behind.new }
    {
        match self.next_item(at) {
            Some(item) => self.put_item(&item, i, low, behind),
            None => low,
        }
    }

    /// Writes an item behind the `i` items of a leaf whose bodies begin at byte `low` behind the leaf's head, and answers
    /// where they begin then.
    fn put_item(&self, item: &SampleItem, i: usize, low: usize, behind: &mut [u8]) -> usize
        requires right { IsSampleItem self.now item.now }
        requires room { length behind.old ≡ 4072 }
        requires heads { 24 * i + 24 + item.now.head.length ≤ low }
        requires within { low ≤ 4072 }
        ensures begin { result + item.now.head.length ≡ low }
        ensures bytes { (items : List SampleItemOf) → length items ≡ i → low + length (bodies self.now items) ≡ 4072 → bytes_taken items + low ≡ 4072 + 24 * i
            → behind.old ≡ leaf_contents self.now items → behind.new ≡ leaf_contents self.now (items ++ item.now ∷ []) }
        ensures bodies { (items : List SampleItemOf) → low + length (bodies self.now items) ≡ 4072 → result + length (bodies self.now (items ++ item.now ∷ [])) ≡ 4072 }
    {
        let begin = low - item.head.length as usize;
        self.put_body(item, &mut behind[begin..low]);
        let at = IH_SIZE * i;
        put_head(
            &item.head,
            (BLKH_SIZE + begin) as u16,
            &mut behind[at..at + IH_SIZE],
        );
        begin
    }
}

/// The bytes that an item takes, with its head.
fn taken_by(item: &SampleItem) -> u16
    requires { item.now.head.length ≤ 4048 }
    ensures { result ≡ taken_by item.now }
{
    24 + item.head.length
}
