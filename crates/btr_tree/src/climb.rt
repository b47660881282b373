ghost use Rattle.std.specs.Prelude.{◌≡◌, ◌≤◌, ◌<◌, ◌+◌, ◌*◌, ◌^◌, List, Some, Err, All, length, take, IfOk, IsTrue};
ghost use Rattle.std.specs.List.{sum};
ghost use Rattle.btr_node.specs.outside.Fault.{HasCauseOf};
ghost use Rattle.btr_node.specs.outside.History.{reads, WritesOnly};
ghost use Rattle.btr_node.specs.NodeSize.{IsNodeSize};
ghost use Rattle.btr_tree.specs.Building.{AreSlots, IsLater, Goes, taken};
ghost use Rattle.btr_tree.specs.Packing.{tree_levels};
ghost use Rattle.btr_tree.specs.Roots.{IsClimbed, HasForest};
ghost use Rattle.btr_tree.specs.Writing.{IsInSlots};

use crate::answer::TreeAnswer;
use crate::nodes::Nodes;
use crate::parents::raise;
use btr_node::{Access, Child, Disk};
use btr_reader_walk::subtrees_are_trees;
use std::alloc::Global;

/// The root of a tree that was written.
#[derive(Clone, Copy, Debug, PartialEq, Eq)]
pub struct Root {
    /// The root's address, in bytes.
    pub address: u64,
    /// 0 where the root is a leaf.
    pub level: u8,
    /// How many nodes the tree has.
    pub nodes: u64,
}

/// Makes the levels above the leaves, which are these children, up to the root. Nodes are written where 16 are held.
pub fn climb<D: Disk>(
    alloc: Global,
    disk: &mut D,
    nodes: &mut Nodes,
    leaves: Vec<Child>,
) -> Result<Root, TreeAnswer>
    requires size { IsNodeSize nodes.old.form.nodesize }
    requires slots { AreSlots nodes.old.form.nodesize nodes.old.offsets }
    requires few { taken nodes.old ≤ length nodes.old.slots }
    requires some { 1 ≤ length leaves.items }
    requires made { taken nodes.old ≡ length leaves.items }
    requires forest { HasForest nodes.old leaves.items }
    requires open { D.opened disk.old ≡ Some Access.Write }
    requires in_range { All (λ a. a + nodes.old.form.nodesize ≤ 4096 * D.size disk.old) nodes.old.offsets }
    ensures open { D.opened disk.new ≡ D.opened disk.old }
    ensures size { D.size disk.new ≡ D.size disk.old }
    ensures borrow { D.borrow disk.new ≡ D.borrow disk.old }
    ensures climbed { IfOk result (λ root. Goes D.tells (reads (D.history disk.old)) (reads (D.history disk.new)) nodes.old nodes.new (λ m n. IsClimbed m leaves.items n root)) }
    ensures later { IsLater nodes.old nodes.new }
    ensures out { result ≡ Err TreeAnswer.OutOfSlots → length nodes.old.slots < sum (tree_levels nodes.old.form.nodesize (length leaves.items)) }
    ensures only { IsTrue D.tells → WritesOnly (λ b _. IsInSlots nodes.old.form.nodesize (take (taken nodes.new) nodes.old.offsets) b) (D.history disk.old) (D.history disk.new) }
    ensures cause { HasCauseOf TreeAnswer.Fault (D.faults disk.old) (D.faults disk.new) result }
{
    let mut children = leaves;
    let mut level: u8 = 0;
    while children.len() > 1 {
        let above = level + 1;
        children = raise(alloc, disk, nodes, children.as_slice(), above)?;
        level = above;
    }
    subtrees_are_trees();
    Ok(Root {
        address: children[0].address,
        level,
        nodes: nodes.len() as u64,
    })
}
