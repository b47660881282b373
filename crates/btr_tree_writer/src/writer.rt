ghost use Rattle.std.specs.Prelude.{◌≡◌, ◌≤◌, ◌<◌, ◌+◌, ◌*◌, ◌^◌, ◌++◌, ◌∷◌, [], List, Some, Err, All, length, IsTrue, IfOk, OnOk};
ghost use Rattle.btr_tree.specs.outside.Fault.{HasCauseOf};
ghost use Rattle.btr_tree.specs.outside.History.{Image, reads, WritesOnly};
ghost use Rattle.btr_tree.specs.btr_node.Leaf.{Item};
ghost use Rattle.btr_tree.specs.btr_node.NodeSize.{IsNodeSize};
ghost use Rattle.btr_tree.specs.Builder.{IsSameBuilding};
ghost use Rattle.btr_tree.specs.Building.{AreSlots, MapsSlots};
ghost use Rattle.btr_tree.specs.Counting.{Counted};
ghost use Rattle.btr_tree.specs.Roots.{lengths_of};
ghost use Rattle.btr_tree.specs.Writing.{IsInSlots};
ghost use Rattle.btr_tree_writer.specs.Answers.{of_builder};
ghost use Rattle.btr_tree.specs.Whole.{IsWholeTree};
ghost use Rattle.btr_tree.specs.btr_reader_walk.declared.map.MapRange.{MapRange};
ghost use Rattle.btr_tree_writer.specs.Trees.{AreWritable, TreeStandsBy, pointer_of_root, read_form};

use crate::answer::WriteAnswer;
use crate::form::NodeForm;
use btr_tree::{Access, Counter, Disk, Key, Memory, NodeSlots, Root, TreeBuilder};
use std::alloc::Global;

/// The bytes of a node's head and of an item's head together.
const HEADS: usize = 126;

/// A tree that is being written, its last key, and a count of its nodes.
#[derive(Drop)]
pub struct TreeWriter {
    builder: TreeBuilder,
    counter: Counter,
    nodesize: u32,
    last: Option<Key>,
}

impl TreeWriter {
    ghost use Rattle.std.specs.Prelude.{◌≡◌, ◌↔◌, ℕ, IfErr};
    ghost use Rattle.btr_tree.specs.btr_reader_walk.declared.tree.Form.{Form as FormOf};
    ghost use Rattle.btr_tree.specs.Slots.{SlotLists};
    ghost use Rattle.btr_tree_writer.specs.Answers.{IsWriteAnswer};
    ghost use Rattle.btr_tree_writer.specs.Writer.{WritesTree, IsWriterReady, IsStanding, StandsOn, IsAbove, IsCountedTree};

    /// A tree with this number, whose nodes have this generation and go to these slots.
    pub fn new(
        alloc: Global,
        owner: u64,
        form: NodeForm,
        generation: u64,
        slots: NodeSlots,
    ) -> Result<TreeWriter, Memory>
        requires size { IsNodeSize form.nodesize }
        requires slots { AreSlots form.nodesize slots.offsets }
        requires few { length slots.addresses < 2 ^ 43 }
        ensures writes { IfOk result (λ w. WritesTree w (read_form form) generation owner slots []) }
        ensures stands { IfOk result (λ w. (image : Image) → StandsOn w image []) }
        ensures chunk_tree { IfOk result (λ w. w.builder.made.chunk_tree ≡ form.ids.chunk_tree) }
    {
        Ok(TreeWriter {
            builder: TreeBuilder::new(
                alloc,
                owner,
                generation,
                slots,
                form.ids,
                form.nodesize,
                form.sums,
            )?,
            counter: Counter::new(form.nodesize),
            nodesize: form.nodesize,
            last: None,
        })
    }

    /// Appends an item. A misfit is one after which no tree can be written, whatever comes behind it.
    pub fn push<D: Disk>(&mut self, disk: &mut D, key: Key, body: &[u8]) -> Result<(), WriteAnswer>
        requires ready { IsWriterReady self.old }
        requires stands { IsTrue D.tells → IsStanding self.old (reads (D.history disk.old)) }
        requires open { D.opened disk.old ≡ Some Access.Write }
        requires in_range { All (λ a. a + self.old.builder.made.form.nodesize ≤ 4096 * D.size disk.old) self.old.builder.made.offsets }
        ensures writes { (form : FormOf) (generation owner : ℕ) (slots : SlotLists) (items : List Item) → WritesTree self.old form generation owner slots items → OnOk result (WritesTree self.new form generation owner slots (items ++ (key, body.now) ∷ [])) }
        ensures stands { (items : List Item) → IsTrue D.tells → StandsOn self.old (reads (D.history disk.old)) items → OnOk result (StandsOn self.new (reads (D.history disk.new)) (items ++ (key, body.now) ∷ [])) }
        ensures answers { IfErr result IsWriteAnswer }
        ensures misfit { (form : FormOf) (generation owner : ℕ) (slots : SlotLists) (items rest : List Item) → WritesTree self.old form generation owner slots items → result ≡ Err WriteAnswer.Misfit
            → ¬ AreWritable form.nodesize slots.addresses (items ++ (key, body.now) ∷ rest) }
        ensures more { OnOk result (self.old.counter.bytes < self.new.counter.bytes) }
        ensures chunk_tree { OnOk result (self.new.builder.made.chunk_tree ≡ self.old.builder.made.chunk_tree) }
        ensures open { D.opened disk.new ≡ D.opened disk.old }
        ensures size { D.size disk.new ≡ D.size disk.old }
        ensures borrow { D.borrow disk.new ≡ D.borrow disk.old }
        ensures only { IsTrue D.tells → WritesOnly (λ b _. IsInSlots self.old.builder.made.form.nodesize self.old.builder.made.offsets b) (D.history disk.old) (D.history disk.new) }
        ensures cause { HasCauseOf WriteAnswer.Fault (D.faults disk.old) (D.faults disk.new) result }
    {
        if !self.fits(key, body) {
            return Err(WriteAnswer::Misfit);
        }
        self.builder.push(disk, key, body)?;
        self.counter.add(body.len());
        self.last = Some(key);
        Ok(())
    }

    /// Whether the item may be the next one.
    fn fits(&self, key: Key, body: &[u8]) -> bool
        ensures { IsTrue result ↔ IsAbove self.now.last key × (length body.now + 126 ≤ self.now.nodesize) }
    {
        let is_above = match self.last {
            Some(last) => last < key,
            None => true,
        };
        is_above && body.len() + HEADS <= self.nodesize as usize
    }

    /// Writes what is left of the tree, and gives its root and the count of its nodes.
    pub fn finish<D: Disk>(mut self, disk: &mut D) -> Result<(Root, Counter), WriteAnswer>
        requires ready { IsWriterReady self }
        requires stands { IsTrue D.tells → IsStanding self (reads (D.history disk.old)) }
        requires open { D.opened disk.old ≡ Some Access.Write }
        requires in_range { All (λ a. a + self.builder.made.form.nodesize ≤ 4096 * D.size disk.old) self.builder.made.offsets }
        ensures tree { (form : FormOf) (generation owner : ℕ) (slots : SlotLists) (items : List Item) (ranges : List MapRange) → MapsSlots ranges form.nodesize slots.addresses slots.offsets → IsTrue D.tells → WritesTree self form generation owner slots items → StandsOn self (reads (D.history disk.old)) items
            → IfOk result (λ t. TreeStandsBy (reads (D.history disk.new)) ranges form generation owner slots.addresses items t.0) }
        ensures whole { (form : FormOf) (generation owner : ℕ) (slots : SlotLists) (items : List Item) (ranges : List MapRange) → MapsSlots ranges form.nodesize slots.addresses slots.offsets → IsTrue D.tells → WritesTree self form generation owner slots items
            → IfOk result (λ t. IsWholeTree (reads (D.history disk.new)) ranges form owner self.builder.made.chunk_tree (pointer_of_root generation t.0)) }
        ensures counted { (form : FormOf) (generation owner : ℕ) (slots : SlotLists) (items : List Item) → WritesTree self form generation owner slots items → IfOk result (λ t. IsCountedTree form.nodesize slots.addresses items t.0 t.1) }
        ensures answers { IfErr result IsWriteAnswer }
        ensures misfit { (form : FormOf) (generation owner : ℕ) (slots : SlotLists) (items : List Item) → WritesTree self form generation owner slots items → result ≡ Err WriteAnswer.Misfit → ¬ AreWritable form.nodesize slots.addresses items }
        ensures open { D.opened disk.new ≡ D.opened disk.old }
        ensures size { D.size disk.new ≡ D.size disk.old }
        ensures borrow { D.borrow disk.new ≡ D.borrow disk.old }
        ensures only { IsTrue D.tells → WritesOnly (λ b _. IsInSlots self.builder.made.form.nodesize self.builder.made.offsets b) (D.history disk.old) (D.history disk.new) }
        ensures cause { HasCauseOf WriteAnswer.Fault (D.faults disk.old) (D.faults disk.new) result }
    {
        let root = self.builder.finish(disk)?;
        Ok((root, self.counter))
    }
}
