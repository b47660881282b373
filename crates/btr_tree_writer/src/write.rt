ghost use Rattle.std.specs.Prelude.{◌≡◌, ◌≤◌, ◌<◌, ◌+◌, ◌*◌, ◌^◌, ◌++◌, ◌∷◌, [], ℕ, List, Some, All, length, IsTrue, IfOk, OnOk};
ghost use Rattle.std.specs.Result.{MatchResult};
ghost use Rattle.btr_tree.specs.outside.Fault.{HasCauseOf};
ghost use Rattle.btr_tree.specs.outside.History.{Image, reads, OverTold, WritesOnly};
ghost use Rattle.btr_tree.specs.btr_node.Leaf.{Item};
ghost use Rattle.btr_tree.specs.btr_node.NodeSize.{IsNodeSize};
ghost use Rattle.btr_tree.specs.Building.{AreSlots, MapsSlots};
ghost use Rattle.btr_tree.specs.Counting.{Counted, tree_nodes};
ghost use Rattle.btr_tree.specs.Roots.{lengths_of};
ghost use Rattle.btr_tree.specs.Writing.{IsInSlots};
ghost use Rattle.btr_tree_writer.specs.Answers.{IsFailure};
ghost use Rattle.btr_tree_writer.specs.Source.{LieApart};
ghost use Rattle.btr_tree.specs.btr_reader_walk.declared.map.MapRange.{MapRange};
ghost use Rattle.btr_tree_writer.specs.Trees.{AreWritable, IsWrittenBy, IsWrittenWith, TreeStands, TreeStandsBy, read_form};

use crate::answer::WriteAnswer;
use crate::form::NodeForm;
use crate::source::ItemSource;
use crate::writer::TreeWriter;
use btr_tree::{Access, Counter, Disk, NodeSlots, Root, Slots};
use std::alloc::Global;

/// A tree that was written.
#[derive(Drop)]
pub struct WrittenTree {
    pub root: Root,
    /// Its nodes, counted from the lengths of its items.
    pub counter: Counter,
}

/// Writes the tree with this number, of the items that come, to the first of the slots: addresses in bytes, distinct
/// multiples of the node size, on a volume that has each address at the offset of the same number. Transaction 1 makes it. Its
/// contract is that of [`write_tree_at`].
pub fn write_tree<D: Disk, I: ItemSource>(
    alloc: Global,
    disk: &mut D,
    owner: u64,
    form: NodeForm,
    slots: Slots,
    items: &mut I,
) -> Result<WrittenTree, WriteAnswer>
    requires size { IsNodeSize form.nodesize }
    requires slots { AreSlots form.nodesize slots }
    requires few { length slots < 2 ^ 43 }
    requires open { D.opened disk.old ≡ Some Access.Write }
    requires in_range { All (λ a. a + form.nodesize ≤ 4096 * D.size disk.old) slots }
    requires live { I.is_live items.old }
    requires reach { I.reach items.old ≤ D.size disk.old }
    ensures tree { OverTold D.tells (D.blocks disk.old) (λ image. I.fits items.old image → LieApart (I.needs items.old) form.nodesize slots → (all : List Item) → I.ahead items.old image ≡ all → AreWritable form.nodesize slots all
        → MatchResult result (λ t. TreeStands (reads (D.history disk.new)) (read_form form) owner slots all t.root × Counted t.counter (lengths_of all)) IsFailure) }
    ensures whole { IsTrue D.tells → IfOk result (λ t. IsWrittenWith (reads (D.history disk.new)) form owner t.root) }
    ensures counted { IfOk result (λ t. (lengths : List ℕ) × Counted t.counter lengths × (t.root.nodes ≡ tree_nodes form.nodesize lengths)) }
    ensures size_is { IfOk result (λ t. t.counter.nodesize ≡ form.nodesize) }
    ensures few { IfOk result (λ t. t.root.nodes ≤ length slots) }
    ensures open { D.opened disk.new ≡ D.opened disk.old }
    ensures size { D.size disk.new ≡ D.size disk.old }
    ensures borrow { D.borrow disk.new ≡ D.borrow disk.old }
    ensures only { IsTrue D.tells → WritesOnly (λ b _. IsInSlots form.nodesize slots b) (D.history disk.old) (D.history disk.new) }
    ensures cause { HasCauseOf WriteAnswer.Fault (D.faults disk.old) (D.faults disk.new) result }
{
    write_tree_at(
        alloc,
        disk,
        owner,
        form,
        1,
        NodeSlots::in_place(slots),
        items,
    )
}

/// Writes the tree with this number, of the items that come, to the first of the slots, whose offsets are distinct multiples
/// of the node size. Nodes and pointers have the slots' logical addresses, and this generation.
///
/// Over a disk that tells its blocks, items of which a tree can be written give that tree, or a fault or want of memory,
/// where no block that the source needs is one of a slot. It stands by each map of addresses that gives the slots at their
/// offsets. Whatever the items are, each node of the tree is exactly the bytes of its draft, with the identifiers of the form.
/// At any answer only blocks of the slots may have been written.
pub fn write_tree_at<D: Disk, I: ItemSource>(
    alloc: Global,
    disk: &mut D,
    owner: u64,
    form: NodeForm,
    generation: u64,
    slots: NodeSlots,
    items: &mut I,
) -> Result<WrittenTree, WriteAnswer>
    requires size { IsNodeSize form.nodesize }
    requires slots { AreSlots form.nodesize slots.offsets }
    requires few { length slots.addresses < 2 ^ 43 }
    requires open { D.opened disk.old ≡ Some Access.Write }
    requires in_range { All (λ a. a + form.nodesize ≤ 4096 * D.size disk.old) slots.offsets }
    requires live { I.is_live items.old }
    requires reach { I.reach items.old ≤ D.size disk.old }
    ensures tree { (ranges : List MapRange) → MapsSlots ranges form.nodesize slots.addresses slots.offsets → OverTold D.tells (D.blocks disk.old) (λ image. I.fits items.old image → LieApart (I.needs items.old) form.nodesize slots.offsets → (all : List Item) → I.ahead items.old image ≡ all → AreWritable form.nodesize slots.addresses all
        → MatchResult result (λ t. TreeStandsBy (reads (D.history disk.new)) ranges (read_form form) generation owner slots.addresses all t.root × Counted t.counter (lengths_of all)) IsFailure) }
    ensures whole { (ranges : List MapRange) → MapsSlots ranges form.nodesize slots.addresses slots.offsets → IsTrue D.tells → IfOk result (λ t. IsWrittenBy (reads (D.history disk.new)) ranges form generation owner t.root) }
    ensures counted { IfOk result (λ t. (lengths : List ℕ) × Counted t.counter lengths × (t.root.nodes ≡ tree_nodes form.nodesize lengths)) }
    ensures size_is { IfOk result (λ t. t.counter.nodesize ≡ form.nodesize) }
    ensures few { IfOk result (λ t. t.root.nodes ≤ length slots.addresses) }
    ensures open { D.opened disk.new ≡ D.opened disk.old }
    ensures size { D.size disk.new ≡ D.size disk.old }
    ensures borrow { D.borrow disk.new ≡ D.borrow disk.old }
    ensures only { IsTrue D.tells → WritesOnly (λ b _. IsInSlots form.nodesize slots.offsets b) (D.history disk.old) (D.history disk.new) }
    ensures cause { HasCauseOf WriteAnswer.Fault (D.faults disk.old) (D.faults disk.new) result }
{
    let mut writer = TreeWriter::new(alloc, owner, form, generation, slots)?;
    while items.advance(disk)? {
        writer.push(disk, items.key(), items.body())?;
    }
    let (root, counter) = writer.finish(disk)?;
    Ok(WrittenTree { root, counter })
}
