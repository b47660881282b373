ghost use Rattle.std.specs.Prelude.{◌≡◌, ◌≤◌, ◌<◌, ◌+◌, ◌*◌, ◌^◌, ◌⊎◌, ◌++◌, ◌∷◌, [], ℕ, List, Some, All, AllPairs, drop, length, IsTrue, IfOk, IfErr, OnOk};
ghost use Rattle.std.specs.Result.{MatchResult};
ghost use Rattle.btr_tree.specs.outside.Fault.{HasCauseOf};
ghost use Rattle.btr_tree.specs.outside.History.{Image, reads, OverTold, WritesOnly};
ghost use Rattle.btr_tree.specs.btr_node.Leaf.{Item as ItemOf};
ghost use Rattle.btr_tree.specs.btr_node.NodeSize.{IsNodeSize};
ghost use Rattle.btr_tree.specs.Building.{AreSlots};
ghost use Rattle.btr_tree.specs.Counting.{Counted, tree_nodes};
ghost use Rattle.btr_tree.specs.Roots.{lengths_of};
ghost use Rattle.btr_tree.specs.Writing.{IsInSlots};
ghost use Rattle.space_items.specs.Nodes.{AreNodes, nodes_of_tree};
ghost use Rattle.btr_tree_writer.specs.Answers.{IsFailure};
ghost use Rattle.btr_tree_writer.specs.Source.{LieApart};
ghost use Rattle.btr_tree_writer.specs.Trees.{AreWritable, IsWrittenWith, TreeStands, read_form};

use crate::answer::WriteAnswer;
use crate::form::NodeForm;
use crate::source::ItemSource;
use crate::write::write_tree;
use btr_tree::{Access, Counter, Disk, Memory, Root, Slots};
use space_items::{NodeList, add_nodes};
use std::alloc::Global;

/// Trees that are written one behind the other to the slots of one list, and the nodes that they took.
#[derive(Drop)]
pub struct Trees {
    form: NodeForm,
    slots: Slots,
    taken: usize,
    nodes: NodeList,
}

impl Trees {
    ghost use Rattle.btr_tree_writer.specs.Row.{IsSlotRow};

    /// No tree yet. The slots are addresses in bytes, ascending multiples of the node size.
    pub fn new(alloc: Global, form: NodeForm, slots: Slots) -> Trees
        requires size { IsNodeSize form.nodesize }
        requires slots { AreSlots form.nodesize slots }
        requires ascending { AllPairs (λ a b. a < b) slots }
        requires few { length slots < 2 ^ 43 }
        ensures fields { (result.form ≡ form) × (result.slots ≡ slots) × (result.taken ≡ 0) × (result.nodes ≡ []) }
        ensures row { IsSlotRow result }
    {
        Trees {
            form,
            slots,
            taken: 0,
            nodes: NodeList::new(alloc),
        }
    }

    /// Writes the tree with this number, of the items that come, to the next slots. Its contract is that of [`write_tree`],
    /// where the slots are those that are not taken.
    pub fn write<D: Disk, I: ItemSource>(
        &mut self,
        alloc: Global,
        disk: &mut D,
        owner: u64,
        items: &mut I,
    ) -> Result<Root, WriteAnswer>
        requires row { IsSlotRow self.old }
        requires open { D.opened disk.old ≡ Some Access.Write }
        requires in_range { All (λ a. a + self.old.form.nodesize ≤ 4096 * D.size disk.old) self.old.slots }
        requires live { I.is_live items.old }
        requires reach { I.reach items.old ≤ D.size disk.old }
        ensures row { OnOk result (IsSlotRow self.new) }
        ensures same { (self.new.form ≡ self.old.form) × (self.new.slots ≡ self.old.slots) }
        ensures taken { IfOk result (λ root. self.new.taken ≡ self.old.taken + root.nodes) }
        ensures tree { OverTold D.tells (D.blocks disk.old) (λ image. I.fits items.old image → LieApart (I.needs items.old) self.old.form.nodesize self.old.slots → (all : List ItemOf) → I.ahead items.old image ≡ all → AreWritable self.old.form.nodesize (drop self.old.taken self.old.slots) all
            → MatchResult result (λ root. TreeStands (reads (D.history disk.new)) (read_form self.old.form) owner (drop self.old.taken self.old.slots) all root
            × (self.new.nodes ≡ self.old.nodes ++ nodes_of_tree owner self.old.form.nodesize (lengths_of all) (drop self.old.taken self.old.slots))) IsFailure) }
        ensures whole { IsTrue D.tells → IfOk result (λ root. IsWrittenWith (reads (D.history disk.new)) self.old.form owner root) }
        ensures open { D.opened disk.new ≡ D.opened disk.old }
        ensures size { D.size disk.new ≡ D.size disk.old }
        ensures borrow { D.borrow disk.new ≡ D.borrow disk.old }
        ensures only { IsTrue D.tells → WritesOnly (λ b _. IsInSlots self.old.form.nodesize (drop self.old.taken self.old.slots) b) (D.history disk.old) (D.history disk.new) }
        ensures cause { HasCauseOf WriteAnswer.Fault (D.faults disk.old) (D.faults disk.new) result }
    {
        let slots = rest_of(alloc, &self.slots, self.taken)?;
        let tree = write_tree(alloc, disk, owner, self.form, slots, items)?;
        self.take(&tree.counter, owner)?;
        Ok(tree.root)
    }

    /// Takes the next slots for the nodes of a tree with this number whose items were counted. A misfit is one for whose
    /// nodes there are too few slots.
    pub fn take(&mut self, counter: &Counter, owner: u64) -> Result<(), WriteAnswer>
        requires row { IsSlotRow self.old }
        requires size { counter.now.nodesize ≡ self.old.form.nodesize }
        requires counted { (lengths : List ℕ) × Counted counter.now lengths }
        ensures row { OnOk result (IsSlotRow self.new) }
        ensures same { (self.new.form ≡ self.old.form) × (self.new.slots ≡ self.old.slots) }
        ensures taken { (lengths : List ℕ) → Counted counter.now lengths
            → OnOk result ((self.new.taken ≡ self.old.taken + tree_nodes self.old.form.nodesize lengths)
            × (self.new.nodes ≡ self.old.nodes ++ nodes_of_tree owner self.old.form.nodesize lengths (drop self.old.taken self.old.slots))) }
        ensures answers { IfErr result (λ e. (e ≡ WriteAnswer.Misfit) ⊎ (e ≡ WriteAnswer.Memory)) }
        ensures misfit { (lengths : List ℕ) → Counted counter.now lengths → self.old.taken + tree_nodes self.old.form.nodesize lengths ≤ length self.old.slots → IfErr result (λ e. e ≡ WriteAnswer.Memory) }
    {
        let count = counter.finish() as usize;
        if count > self.slots.len() - self.taken {
            return Err(WriteAnswer::Misfit);
        }
        add_nodes(&mut self.nodes, &self.slots, self.taken, counter, owner)?;
        self.taken += count;
        Ok(())
    }

    /// How many slots are taken.
    pub fn taken(&self) -> usize
        ensures { result ≡ self.now.taken }
    {
        self.taken
    }

    /// The slots from number `first` on.
    pub fn slots_from(&self, alloc: Global, first: usize) -> Result<Slots, Memory>
        requires { first ≤ length self.now.slots }
        ensures { IfOk result (λ slots. slots ≡ drop first self.now.slots) }
    {
        rest_of(alloc, &self.slots, first)
    }

    /// The nodes at the slots that are taken, ascending by address.
    pub fn nodes(&self) -> &NodeList
        ensures same { result.now ≡ self.now.nodes }
        ensures fit { IsSlotRow self.now → AreNodes result.now }
    {
        &self.nodes
    }
}

/// The slots from number `first` on.
fn rest_of(alloc: Global, slots: &Slots, first: usize) -> Result<Slots, Memory>
    requires { first ≤ length slots.now }
    ensures { IfOk result (λ rest. rest ≡ drop first slots.now) }
{
    let mut rest = Slots::new(alloc);
    for &slot in &slots.as_slice()[first..] {
        rest.add(slot)?;
    }
    Ok(rest)
}
