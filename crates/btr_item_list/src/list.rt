ghost use Rattle.std.specs.Prelude.{◌≡◌, ◌<◌, ◌++◌, ◌∷◌, [], length, slice_get, Some, OnOk};
ghost use Rattle.btr_node.specs.Leaf.{Item};
ghost use Rattle.btr_item_list.specs.Groups.{ascending};
ghost use Rattle.btr_item_list.specs.Lists.{offset_of};

use btr_node::{Key, Memory};
use std::alloc::Global;
use std::marker::Model;

/// The key of an item, and where its body lies among the bytes of all.
#[derive(Clone, Copy)]
struct ItemRange {
    key: Key,
    start: usize,
    end: usize,
}

/// Some items, seen as a list of them. What memory it took it keeps for the next ones.
#[derive(Drop)]
pub struct ItemList {
    heads: Vec<ItemRange>,
    bytes: Vec<u8>,
}

impl Model for ItemList {
    ghost use Rattle.std.specs.Prelude.{List, map, All, length};
    ghost use Rattle.btr_node.specs.Leaf.{Item};
    ghost use Rattle.btr_item_list.specs.Lists.{item_by, IsBodyWithin};

    ghost Value = { List Item };

    ghost view = { λ l. map (item_by l.bytes.items) l.heads.items };

    ghost invariant = { λ l. All (IsBodyWithin (length l.bytes.items)) l.heads.items };
}

impl ItemList {
    /// No items.
    pub fn new(alloc: Global) -> ItemList
        ensures { result ≡ [] }
    {
        ItemList {
            heads: Vec::new(alloc),
            bytes: Vec::new(alloc),
        }
    }

    /// Appends the items of another list.
    pub fn append(&mut self, more: &ItemList) -> Result<(), Memory>
        ensures { OnOk result (self.new ≡ self.old ++ more.now) }
    {
        for i in 0..more.len() {
            self.add(more.key(i), more.body(i))?;
        }
        Ok(())
    }

    /// Takes all items out.
    pub fn clear(&mut self)
        ensures { self.new ≡ [] }
    {
        self.heads.clear();
        self.bytes.clear();
    }

    /// How many items there are.
    pub fn len(&self) -> usize
        ensures { result ≡ length self.now }
    {
        self.heads.len()
    }

    /// Appends an item.
    pub fn add(&mut self, key: Key, body: &[u8]) -> Result<(), Memory>
        ensures ok { OnOk result (self.new ≡ self.old ++ (key, body.now) ∷ []) }
    {
        let start = self.bytes.len();
        self.bytes.extend_from_slice(body)?;
        let head = ItemRange {
            key,
            start,
            end: self.bytes.len(),
        };
        self.heads.push(head)?;
        Ok(())
    }

    /// Puts the items in the order of their offsets; those of one offset keep theirs.
    pub fn sort(&mut self) -> Result<(), Memory>
        ensures { OnOk result (self.new ≡ ascending offset_of self.old) }
    {
        self.heads.sort_by_key(|head| head.key.offset)?;
        Ok(())
    }

    /// The key of item `i`.
    pub fn key(&self, i: usize) -> Key
        requires { i < length self.now }
        ensures { (item : Item) → slice_get self.now i ≡ Some item → result ≡ item.0 }
    {
        self.heads[i].key
    }

    /// The body of item `i`.
    pub fn body(&self, i: usize) -> &[u8]
        requires { i < length self.now }
        ensures { (item : Item) → slice_get self.now i ≡ Some item → result.now ≡ item.1 }
    {
        let head = &self.heads[i];
        &self.bytes[head.start..head.end]
    }
}
