ghost use Rattle.std.specs.Prelude.{◌≡◌, ◌<◌, ◌+◌, ◌==◌, ◌++◌, ◌∷◌, ℕ, List, [], length, slice_get, Some, IsTrue, OnOk, IfOk};
ghost use Rattle.reiser_volume_objects.specs.Leaves.{without_repeats, ends_with};

use reiser_bitmap::Memory;
use reiser_items::BlockNo;
use std::alloc::Global;
use std::marker::Model;

/// The leaves of a tree in the order of its items, each once: 8 bytes for a leaf.
#[derive(Drop)]
pub struct LeafList {
    blocks: Vec<BlockNo>,
}

impl Model for LeafList {
    ghost use Rattle.std.specs.Prelude.{ℕ, List};

    ghost Value = { List ℕ };

    ghost view = { λ l. l.blocks.items };
}

impl LeafList {
    /// No leaves.
    pub fn new(alloc: Global) -> LeafList
        ensures { result ≡ [] }
    {
        LeafList {
            blocks: Vec::new(alloc),
        }
    }

    /// How many leaves there are.
    pub fn len(&self) -> usize
        ensures { result ≡ length self.now }
    {
        self.blocks.len()
    }

    /// Whether there is no leaf.
    pub fn is_empty(&self) -> bool
        ensures { result ≡ (length self.now == 0) }
    {
        self.blocks.is_empty()
    }

    /// The block of leaf number `i`, counted from 0.
    pub fn get(&self, i: usize) -> BlockNo
        requires { i < length self.now }
        ensures { slice_get self.now i ≡ Some result }
    {
        self.blocks[i]
    }

    /// Adds the leaf of the next item, if it is another one than that of the item before. Its number in the list.
    pub(crate) fn add(&mut self, leaf: BlockNo) -> Result<usize, Memory>
        ensures leaves { (leaves : List ℕ) → self.old ≡ without_repeats leaves → OnOk result (self.new ≡ without_repeats (leaves ++ leaf ∷ [])) }
        ensures last { IfOk result (λ place. place + 1 ≡ length self.new) }
    {
        if self.ends_with(leaf) {
            return Ok(self.blocks.len() - 1);
        }
        self.blocks.push(leaf)?;
        Ok(self.blocks.len() - 1)
    }

    /// Whether this leaf is the last one.
    fn ends_with(&self, leaf: BlockNo) -> bool
        ensures last { result ≡ ends_with self.now leaf }
        ensures some { IsTrue result → 0 < length self.now }
    {
        match self.blocks.last() {
            Some(last) => *last == leaf,
            None => false,
        }
    }
}
