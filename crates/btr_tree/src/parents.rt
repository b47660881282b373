ghost use Rattle.std.specs.Prelude.{◌≡◌, ◌≤◌, ◌<◌, ◌+◌, ◌*◌, ◌++◌, ◌∷◌, [], Some, Err, OnOk, All, length, take, IfOk, IfSome, slice_get, None, IsTrue};
ghost use Rattle.btr_node.specs.outside.Fault.{HasCauseOf};
ghost use Rattle.btr_node.specs.outside.History.{reads, WritesOnly};
ghost use Rattle.btr_node.specs.Inner.{first_keys};
ghost use Rattle.btr_node.specs.NodeSize.{IsNodeSize};
ghost use Rattle.btr_node.specs.Order.{Ascends};
ghost use Rattle.std.specs.Int.{div_ceil};
ghost use Rattle.btr_tree.specs.Building.{IsParentAt, IsLater, Goes, AreSlots, taken};
ghost use Rattle.btr_tree.specs.Roots.{IsRaised};
ghost use Rattle.btr_tree.specs.Packing.{fan_out};
ghost use Rattle.btr_tree.specs.Writing.{IsInSlots};

use crate::answer::{NodeAnswer, TreeAnswer};
use crate::nodes::Nodes;
use btr_node::{Access, Child, Disk, Memory};
use btr_reader_walk::children_give_items;
use std::alloc::Global;

/// Makes the node at the next slot that has these children, and gives the child that it is for the level above: None exactly
/// where no slot is left.
pub fn make_parent(nodes: &mut Nodes, part: &[Child], level: u8) -> Option<Child>
    requires size { IsNodeSize nodes.old.form.nodesize }
    requires batch { length nodes.old.nodes < 16 }
    requires some { 1 ≤ length part.now }
    requires fits { length part.now ≤ fan_out nodes.old.form.nodesize }
    requires inner { 1 ≤ level }
    requires order { Ascends (first_keys part.now) }
    ensures made { IfSome result (λ child. IsParentAt (taken nodes.old) nodes.old level part.now child nodes.new) }
    ensures later { IsLater nodes.old nodes.new }
    ensures out { result ≡ None → slice_get nodes.old.slots (taken nodes.old) ≡ None }
{
    let Some(address) = nodes.next_slot() else {
        return None;
    };
    nodes.begin(level, address);
    for child in part {
        nodes.put_child(*child);
    }
    nodes.seal();
    Some(Child {
        key: part[0].key,
        address,
        generation: nodes.generation(),
    })
}

/// Makes the node at the next slot that has these children, and appends the child that it is for the level above.
fn add_parent(
    nodes: &mut Nodes,
    parents: &mut Vec<Child>,
    part: &[Child],
    level: u8,
) -> Result<(), NodeAnswer>
    requires size { IsNodeSize nodes.old.form.nodesize }
    requires batch { length nodes.old.nodes < 16 }
    requires some { 1 ≤ length part.now }
    requires fits { length part.now ≤ fan_out nodes.old.form.nodesize }
    requires inner { 1 ≤ level }
    requires order { Ascends (first_keys part.now) }
    ensures made { OnOk result ((child : Child) × IsParentAt (taken nodes.old) nodes.old level part.now child nodes.new × (parents.new.items ≡ parents.old.items ++ child ∷ [])) }
    ensures later { IsLater nodes.old nodes.new }
    ensures out { result ≡ Err NodeAnswer.OutOfSlots → slice_get nodes.old.slots (taken nodes.old) ≡ None }
{
    let Some(parent) = make_parent(nodes, part, level) else {
        return Err(NodeAnswer::OutOfSlots);
    };
    add_child(parents, parent)?;
    Ok(())
}

/// Appends a child. Without memory the list is unchanged.
fn add_child(children: &mut Vec<Child>, child: Child) -> Result<(), Memory>
    ensures { OnOk result (children.new.items ≡ children.old.items ++ child ∷ []) }
{
    children.push(child)?;
    Ok(())
}

/// Makes the nodes of a level from the children of the level below, and gives the children that they are for the level
/// above. Nodes are written where 16 are held.
pub fn raise<D: Disk>(
    alloc: Global,
    disk: &mut D,
    nodes: &mut Nodes,
    children: &[Child],
    level: u8,
) -> Result<Vec<Child>, TreeAnswer>
    requires size { IsNodeSize nodes.old.form.nodesize }
    requires slots { AreSlots nodes.old.form.nodesize nodes.old.offsets }
    requires few { taken nodes.old ≤ length nodes.old.slots }
    requires inner { 1 ≤ level }
    requires order { Ascends (first_keys children.now) }
    requires open { D.opened disk.old ≡ Some Access.Write }
    requires in_range { All (λ a. a + nodes.old.form.nodesize ≤ 4096 * D.size disk.old) nodes.old.offsets }
    ensures open { D.opened disk.new ≡ D.opened disk.old }
    ensures size { D.size disk.new ≡ D.size disk.old }
    ensures borrow { D.borrow disk.new ≡ D.borrow disk.old }
    ensures raised { IfOk result (λ parents. Goes D.tells (reads (D.history disk.old)) (reads (D.history disk.new)) nodes.old nodes.new (λ m n. IsRaised m children.now level n parents.items)) }
    ensures later { IsLater nodes.old nodes.new }
    ensures out { result ≡ Err TreeAnswer.OutOfSlots
        → length nodes.old.slots < taken nodes.old + div_ceil (length children.now) (fan_out nodes.old.form.nodesize) }
    ensures only { IsTrue D.tells → WritesOnly (λ b _. IsInSlots nodes.old.form.nodesize (take (taken nodes.new) nodes.old.offsets) b) (D.history disk.old) (D.history disk.new) }
    ensures cause { HasCauseOf TreeAnswer.Fault (D.faults disk.old) (D.faults disk.new) result }
{
    children_give_items();
    let fan_out = nodes.fan_out();
    let mut parents = Vec::new(alloc);
    let mut start = 0;
    while start < children.len() {
        let end = children.len().min(start + fan_out);
        nodes.make_room(disk)?;
        add_parent(nodes, &mut parents, &children[start..end], level)?;
        start = end;
    }
    Ok(parents)
}
