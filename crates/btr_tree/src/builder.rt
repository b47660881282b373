ghost use Rattle.std.specs.Prelude.{◌≡◌, ◌≤◌, ◌<◌, ◌+◌, ◌*◌, ◌↔◌, ◌++◌, ◌∷◌, [], List, Some, All, Err, IsErr, IsOk, ℕ, length, take, drop, true, false, None, IfOk, IfSome, OnOk, IsTrue};
ghost use Rattle.btr_node.specs.outside.Fault.{HasCauseOf};
ghost use Rattle.btr_node.specs.outside.History.{Image, reads, WritesOnly};
ghost use Rattle.btr_tree.specs.Writing.{IsInSlots};
ghost use Rattle.btr_node.specs.Draft.{node_bytes};
ghost use Rattle.btr_node.specs.Leaf.{Item, keys_of};
ghost use Rattle.btr_node.specs.NodeSize.{IsNodeSize};
ghost use Rattle.btr_node.specs.Order.{Ascends};
ghost use Rattle.btr_reader_walk.specs.declared.map.MapRange.{MapRange};
ghost use Rattle.btr_tree.specs.Building.{AreSlots, IsFresh, IsLater, Goes, MapsSlots, taken, with_written, NodeReadsBack};
ghost use Rattle.btr_tree.specs.Counting.{nodes_above, tree_nodes};
ghost use Rattle.btr_tree.specs.Roots.{HasForest, IsClimbed, IsCompleted, IsFinished, MeetsNodes, lengths_of};
ghost use Rattle.btr_tree.specs.Builder.{pushed, pushed_on, Standing, Stands, Holds, IsReady, HasPut, IsPushed, all_made, leaf_closed, leaf_begun, IsNextTaken, IsSameBuilding, HasTree, HasWhole, leaves_of};

use crate::answer::NodeAnswer;
use crate::climb::{Root, climb};
use crate::nodes::Nodes;
use crate::{NodeSlots, TreeAnswer};
use btr_node::btrfs_format::size::ITEM_SIZE;
use btr_node::{Access, Child, Disk, Ids, Key, Memory, SumKind};
use btr_reader_walk::{Form, leaves_give_items, subtrees_are_trees};
use std::alloc::Global;
use std::marker::Model;
use std::mem::replace;

/// Writes a tree: items go into leaves in the order of their keys, each leaf as full as the next item lets it be, and the
/// levels above are made in the end. The nodes take slots in that order. At most 16 nodes are held until they are written,
/// and of each level one child for each node of the level below.
#[derive(Drop)]
pub struct TreeBuilder {
    nodes: Nodes,
    children: Vec<Child>,
    hand: Option<Child>,
    spent: bool,
    done: bool,
}

impl Model for TreeBuilder {
    ghost use Rattle.btr_tree.specs.Counting.{nodes_above, tree_nodes};
    ghost use Rattle.btr_tree.specs.Roots.{IsForest, IsClimbed, IsCompleted, lengths_of};
    ghost use Rattle.btr_tree.specs.Builder.{Building};

    ghost Value = { Building };

    ghost view = { λ b. record { made = b.nodes; children = b.children.items; hand = b.hand; spent = b.spent; done = b.done } };
}

impl TreeBuilder {
    /// A builder of the tree with this number. Its nodes have the file system's identifier and that of the chunk tree from
    /// `ids`, and this generation, size and kind of checksum. The offsets of the slots are distinct multiples
    /// of the size.
    pub fn new(
        alloc: Global,
        owner: u64,
        generation: u64,
        slots: NodeSlots,
        ids: Ids,
        nodesize: u32,
        sums: SumKind,
    ) -> Result<TreeBuilder, Memory>
        requires size { IsNodeSize nodesize }
        requires slots { AreSlots nodesize slots.offsets }
        ensures fresh { IfOk result (λ b. IsFresh (record { fsid = ids.fsid; nodesize = nodesize; sums = sums }) owner generation ids.chunk_tree slots.addresses slots.offsets b.made) }
        ensures ready { IfOk result (λ b. Holds b []) }
        ensures stands { IfOk result (λ b. (image : Image) → Stands b image) }
        ensures pushed { IfOk result (λ b. (image : Image) → pushed_on b image ≡ []) }
        ensures open { IfOk result (λ b. b.spent ≡ false) }
        ensures begins { IfOk result (λ b. b.done ≡ false) }
    {
        let form = Form {
            fsid: ids.fsid,
            nodesize,
            sums,
        };
        Ok(TreeBuilder {
            nodes: Nodes::new(alloc, form, owner, generation, ids.chunk_tree, slots)?,
            children: Vec::new(alloc),
            hand: None,
            spent: false,
            done: false,
        })
    }

    /// Whether a call answered an error. Then no more is to be asked of the builder.
    pub fn spent(&self) -> bool
        ensures { result ≡ self.now.spent }
    {
        self.spent
    }

    /// Appends an item, whose key is above those before. A body has at most 126 bytes less than a node. The nodes that are held
    /// are written before it where they are 16.
    ///
    /// OutOfSlots comes only where the leaves of all items would be more than the slots, and Ok only where they are not. At any
    /// answer only slots that were taken may have been written.
    pub fn push<D: Disk>(&mut self, disk: &mut D, key: Key, body: &[u8]) -> Result<(), TreeAnswer>
        requires unspent { self.old.spent ≡ false }
        requires going { self.old.done ≡ false }
        requires stands { IsTrue D.tells → Stands self.old (reads (D.history disk.old)) }
        requires ready { IsReady self.old }
        requires order { Ascends (keys_of self.old.made.draft.items ++ key ∷ []) }
        requires small { length body.now + 126 ≤ self.old.made.form.nodesize }
        requires open { D.opened disk.old ≡ Some Access.Write }
        requires in_range { All (λ a. a + self.old.made.form.nodesize ≤ 4096 * D.size disk.old) self.old.made.offsets }
        ensures stands { IsTrue D.tells → OnOk result (Stands self.new (reads (D.history disk.new))) }
        ensures pushed { IsTrue D.tells → OnOk result (pushed_on self.new (reads (D.history disk.new)) ≡ pushed_on self.old (reads (D.history disk.old)) ++ (key, body.now) ∷ []) }
        ensures holds { (items : List Item) → Holds self.old items → OnOk result (Holds self.new (items ++ (key, body.now) ∷ [])) }
        ensures ready { OnOk result (IsReady self.new) }
        ensures same { OnOk result (IsSameBuilding self.old self.new) }
        ensures spent { IsTrue self.new.spent ↔ IsErr result }
        ensures going { self.new.done ≡ false }
        ensures out { (items : List Item) → Holds self.old items → result ≡ Err TreeAnswer.OutOfSlots
            → length self.old.made.slots < leaves_of self.old.made.form.nodesize (items ++ (key, body.now) ∷ []) }
        ensures fits { (items : List Item) → Holds self.old items
            → OnOk result (leaves_of self.old.made.form.nodesize (items ++ (key, body.now) ∷ []) ≤ length self.old.made.slots) }
        ensures open { D.opened disk.new ≡ D.opened disk.old }
        ensures size { D.size disk.new ≡ D.size disk.old }
        ensures borrow { D.borrow disk.new ≡ D.borrow disk.old }
        ensures only { IsTrue D.tells → WritesOnly (λ b _. IsInSlots self.old.made.form.nodesize (take (taken self.new.made) self.old.made.offsets) b) (D.history disk.old) (D.history disk.new) }
        ensures cause { HasCauseOf TreeAnswer.Fault (D.faults disk.old) (D.faults disk.new) result }
    {
        let result = self.push_item(disk, key, body);
        self.spent = result.is_err();
        result
    }

    /// Makes the last leaf and the levels above, and writes all nodes that were not written to their slots. By each map of
    /// addresses that gives the slots at their offsets, the root reads as the tree of the items that were pushed.
    ///
    /// OutOfSlots comes only where the tree has more nodes than there are slots, and Ok only where it has not. At any answer
    /// only slots that were taken may have been written.
    pub fn finish<D: Disk>(&mut self, disk: &mut D) -> Result<Root, TreeAnswer>
        requires unspent { self.old.spent ≡ false }
        requires going { self.old.done ≡ false }
        requires stands { IsTrue D.tells → Stands self.old (reads (D.history disk.old)) }
        requires ready { IsReady self.old }
        requires open { D.opened disk.old ≡ Some Access.Write }
        requires in_range { All (λ a. a + self.old.made.form.nodesize ≤ 4096 * D.size disk.old) self.old.made.offsets }
        ensures tree { (ranges : List MapRange) → MapsSlots ranges self.old.made.form.nodesize self.old.made.slots self.old.made.offsets → IsTrue D.tells → IfOk result (λ root. HasTree (reads (D.history disk.new)) ranges self.old.made root.address root.level (pushed_on self.old (reads (D.history disk.old)))) }
        ensures nodes { (ranges : List MapRange) → MapsSlots ranges self.old.made.form.nodesize self.old.made.slots self.old.made.offsets → IsTrue D.tells → IfOk result (λ root. MeetsNodes (reads (D.history disk.new)) ranges self.old.made root.address root.level (pushed_on self.old (reads (D.history disk.old)))) }
        ensures whole { (ranges : List MapRange) → MapsSlots ranges self.old.made.form.nodesize self.old.made.slots self.old.made.offsets → IsTrue D.tells → IfOk result (λ root. HasWhole (reads (D.history disk.new)) ranges self.old.made root.address root.level) }
        ensures finished { (items : List Item) → Holds self.old items → IfOk result (λ root. IsFinished self.old self.new root items) }
        ensures spent { IsTrue self.new.spent ↔ IsErr result }
        ensures done { IsTrue self.new.done ↔ IsOk result }
        ensures out { (items : List Item) → Holds self.old items → result ≡ Err TreeAnswer.OutOfSlots
            → length self.old.made.slots < tree_nodes self.old.made.form.nodesize (lengths_of items) }
        ensures open { D.opened disk.new ≡ D.opened disk.old }
        ensures size { D.size disk.new ≡ D.size disk.old }
        ensures borrow { D.borrow disk.new ≡ D.borrow disk.old }
        ensures only { IsTrue D.tells → WritesOnly (λ b _. IsInSlots self.old.made.form.nodesize (take (taken self.new.made) self.old.made.offsets) b) (D.history disk.old) (D.history disk.new) }
        ensures cause { HasCauseOf TreeAnswer.Fault (D.faults disk.old) (D.faults disk.new) result }
    {
        let result = self.write_tree(disk);
        self.spent = result.is_err();
        self.done = result.is_ok();
        result
    }

    /// The slots that no node took, in order.
    pub fn rest(self) -> NodeSlots
        requires { self.done ≡ true }
        ensures { result ≡ record { addresses = drop (taken self.made) self.made.slots; offsets = drop (taken self.made) self.made.offsets } }
    {
        self.nodes.rest()
    }

    /// Puts an item, and before it writes the nodes that are held where they are 16.
    fn push_item<D: Disk>(&mut self, disk: &mut D, key: Key, body: &[u8]) -> Result<(), TreeAnswer>
        requires stands { IsTrue D.tells → Stands self.old (reads (D.history disk.old)) }
        requires ready { IsReady self.old }
        requires order { Ascends (keys_of self.old.made.draft.items ++ key ∷ []) }
        requires small { length body.now + 126 ≤ self.old.made.form.nodesize }
        requires open { D.opened disk.old ≡ Some Access.Write }
        requires in_range { All (λ a. a + self.old.made.form.nodesize ≤ 4096 * D.size disk.old) self.old.made.offsets }
        ensures stands { IsTrue D.tells → OnOk result (Stands self.new (reads (D.history disk.new))) }
        ensures pushed { IsTrue D.tells → OnOk result (pushed_on self.new (reads (D.history disk.new)) ≡ pushed_on self.old (reads (D.history disk.old)) ++ (key, body.now) ∷ []) }
        ensures holds { (items : List Item) → Holds self.old items → OnOk result (Holds self.new (items ++ (key, body.now) ∷ [])) }
        ensures same { OnOk result (IsSameBuilding self.old self.new) }
        ensures done { self.new.done ≡ self.old.done }
        ensures out { (items : List Item) → Holds self.old items → result ≡ Err TreeAnswer.OutOfSlots
            → length self.old.made.slots < leaves_of self.old.made.form.nodesize (items ++ (key, body.now) ∷ []) }
        ensures fits { (items : List Item) → Holds self.old items
            → OnOk result (leaves_of self.old.made.form.nodesize (items ++ (key, body.now) ∷ []) ≤ length self.old.made.slots) }
        ensures open { D.opened disk.new ≡ D.opened disk.old }
        ensures size { D.size disk.new ≡ D.size disk.old }
        ensures borrow { D.borrow disk.new ≡ D.borrow disk.old }
        ensures only { IsTrue D.tells → WritesOnly (λ b _. IsInSlots self.old.made.form.nodesize (take (taken self.new.made) self.old.made.offsets) b) (D.history disk.old) (D.history disk.new) }
        ensures cause { HasCauseOf TreeAnswer.Fault (D.faults disk.old) (D.faults disk.new) result }
    {
        self.nodes.make_room(disk)?;
        self.put(key, body)?;
        Ok(())
    }

    /// Makes what is left of the tree, and writes it.
    fn write_tree<D: Disk>(&mut self, disk: &mut D) -> Result<Root, TreeAnswer>
        requires stands { IsTrue D.tells → Stands self.old (reads (D.history disk.old)) }
        requires ready { IsReady self.old }
        requires open { D.opened disk.old ≡ Some Access.Write }
        requires in_range { All (λ a. a + self.old.made.form.nodesize ≤ 4096 * D.size disk.old) self.old.made.offsets }
        ensures tree { (ranges : List MapRange) → MapsSlots ranges self.old.made.form.nodesize self.old.made.slots self.old.made.offsets → IsTrue D.tells → IfOk result (λ root. HasTree (reads (D.history disk.new)) ranges self.old.made root.address root.level (pushed_on self.old (reads (D.history disk.old)))) }
        ensures nodes { (ranges : List MapRange) → MapsSlots ranges self.old.made.form.nodesize self.old.made.slots self.old.made.offsets → IsTrue D.tells → IfOk result (λ root. MeetsNodes (reads (D.history disk.new)) ranges self.old.made root.address root.level (pushed_on self.old (reads (D.history disk.old)))) }
        ensures whole { (ranges : List MapRange) → MapsSlots ranges self.old.made.form.nodesize self.old.made.slots self.old.made.offsets → IsTrue D.tells → IfOk result (λ root. HasWhole (reads (D.history disk.new)) ranges self.old.made root.address root.level) }
        ensures finished { (items : List Item) → Holds self.old items → IfOk result (λ root. IsFinished self.old self.new root items) }
        ensures out { (items : List Item) → Holds self.old items → result ≡ Err TreeAnswer.OutOfSlots
            → length self.old.made.slots < tree_nodes self.old.made.form.nodesize (lengths_of items) }
        ensures open { D.opened disk.new ≡ D.opened disk.old }
        ensures size { D.size disk.new ≡ D.size disk.old }
        ensures borrow { D.borrow disk.new ≡ D.borrow disk.old }
        ensures only { IsTrue D.tells → WritesOnly (λ b _. IsInSlots self.old.made.form.nodesize (take (taken self.new.made) self.old.made.offsets) b) (D.history disk.old) (D.history disk.new) }
        ensures cause { HasCauseOf TreeAnswer.Fault (D.faults disk.old) (D.faults disk.new) result }
    {
        self.nodes.make_room(disk)?;
        let root = self.complete(disk)?;
        self.nodes.flush(disk)?;
        Ok(root)
    }

    /// Puts an item into the leaf in hand, or the next one where that has no room for it.
    fn put(&mut self, key: Key, body: &[u8]) -> Result<(), NodeAnswer>
        requires ready { IsReady self.old }
        requires order { Ascends (keys_of self.old.made.draft.items ++ key ∷ []) }
        requires small { length body.now + 126 ≤ self.old.made.form.nodesize }
        requires batch { length self.old.made.nodes < 16 }
        ensures put { OnOk result (HasPut self.old self.new (key, body.now)) }
        ensures same { OnOk result (IsSameBuilding self.old self.new) }
        ensures done { self.new.done ≡ self.old.done }
        ensures later { IsLater self.old.made self.new.made }
        ensures out { (items : List Item) → Holds self.old items → result ≡ Err NodeAnswer.OutOfSlots
            → length self.old.made.slots < leaves_of self.old.made.form.nodesize (items ++ (key, body.now) ∷ []) }
    {
        let Some(child) = self.hand else {
            return self.put_first(key, body);
        };
        if ITEM_SIZE + body.len() <= self.nodes.room() {
            self.nodes.put_item(key, body);
            return Ok(());
        }
        self.close_leaf(child)?;
        self.put_first(key, body)
    }

    /// Makes the last leaf, and the levels above the leaves.
    fn complete<D: Disk>(&mut self, disk: &mut D) -> Result<Root, TreeAnswer>
        requires ready { IsReady self.old }
        requires batch { length self.old.made.nodes < 16 }
        requires open { D.opened disk.old ≡ Some Access.Write }
        requires in_range { All (λ a. a + self.old.made.form.nodesize ≤ 4096 * D.size disk.old) self.old.made.offsets }
        ensures completed { IfOk result (λ root. Goes D.tells (reads (D.history disk.old)) (reads (D.history disk.new)) self.old.made self.new.made
            (λ m n. Standing (record self.old { made = m }) → IsCompleted (record self.old { made = m }) (record self.new { made = n }) root)) }
        ensures later { IsLater self.old.made self.new.made }
        ensures out { (items : List Item) → Holds self.old items → result ≡ Err TreeAnswer.OutOfSlots
            → length self.old.made.slots < tree_nodes self.old.made.form.nodesize (lengths_of items) }
        ensures open { D.opened disk.new ≡ D.opened disk.old }
        ensures size { D.size disk.new ≡ D.size disk.old }
        ensures borrow { D.borrow disk.new ≡ D.borrow disk.old }
        ensures only { IsTrue D.tells → WritesOnly (λ b _. IsInSlots self.old.made.form.nodesize (take (taken self.new.made) self.old.made.offsets) b) (D.history disk.old) (D.history disk.new) }
        ensures cause { HasCauseOf TreeAnswer.Fault (D.faults disk.old) (D.faults disk.new) result }
    {
        leaves_give_items();
        let Some(child) = self.hand else {
            return match self.complete_empty() {
                Some(root) => Ok(root),
                None => Err(TreeAnswer::OutOfSlots),
            };
        };
        self.close_leaf(child)?;
        self.complete_levels(disk)
    }

    /// Makes the levels above the leaves that were made.
    fn complete_levels<D: Disk>(&mut self, disk: &mut D) -> Result<Root, TreeAnswer>
        requires size { IsNodeSize self.old.made.form.nodesize }
        requires slots { AreSlots self.old.made.form.nodesize self.old.made.offsets }
        requires few { taken self.old.made ≤ length self.old.made.slots }
        requires some { 1 ≤ length self.old.children }
        requires made { taken self.old.made ≡ length self.old.children }
        requires forest { HasForest self.old.made self.old.children }
        requires open { D.opened disk.old ≡ Some Access.Write }
        requires in_range { All (λ a. a + self.old.made.form.nodesize ≤ 4096 * D.size disk.old) self.old.made.offsets }
        ensures climbed { IfOk result (λ root. Goes D.tells (reads (D.history disk.old)) (reads (D.history disk.new)) self.old.made self.new.made (λ m n. IsClimbed m self.old.children n root)) }
        ensures later { IsLater self.old.made self.new.made }
        ensures out { result ≡ Err TreeAnswer.OutOfSlots → length self.old.made.slots < nodes_above self.old.made.form.nodesize (length self.old.children) }
        ensures open { D.opened disk.new ≡ D.opened disk.old }
        ensures size { D.size disk.new ≡ D.size disk.old }
        ensures borrow { D.borrow disk.new ≡ D.borrow disk.old }
        ensures only { IsTrue D.tells → WritesOnly (λ b _. IsInSlots self.old.made.form.nodesize (take (taken self.new.made) self.old.made.offsets) b) (D.history disk.old) (D.history disk.new) }
        ensures cause { HasCauseOf TreeAnswer.Fault (D.faults disk.old) (D.faults disk.new) result }
    {
        let alloc = *self.children.allocator();
        let leaves = replace(&mut self.children, Vec::new(alloc));
        climb(alloc, disk, &mut self.nodes, leaves)
    }

    /// Makes the one leaf of a tree without items. None exactly where no slot is left.
    fn complete_empty(&mut self) -> Option<Root>
        requires size { IsNodeSize self.old.made.form.nodesize }
        requires slots { AreSlots self.old.made.form.nodesize self.old.made.offsets }
        requires batch { length self.old.made.nodes < 16 }
        requires none { (self.old.made.nodes ≡ []) × (self.old.made.written ≡ 0) }
        requires no_items { self.old.made.draft.items ≡ [] }
        ensures done { IfSome result (λ root. IsCompleted (all_made self.old []) (all_made self.new []) root) }
        ensures later { IsLater self.old.made self.new.made }
        ensures same_written { self.new.made.written ≡ self.old.made.written }
        ensures out { result ≡ None → length self.old.made.slots < 1 }
    {
        let Some(address) = self.nodes.next_slot() else {
            return None;
        };
        self.nodes.begin(0, address);
        self.nodes.seal();
        leaves_give_items();
        subtrees_are_trees();
        Some(Root {
            address,
            level: 0,
            nodes: self.nodes.len() as u64,
        })
    }

    /// Makes the leaf in hand, which is this child.
    fn close_leaf(&mut self, child: Child) -> Result<(), Memory>
        requires started { IsTrue self.old.made.draft.started }
        requires leaf { self.old.made.draft.want.level ≡ 0 }
        requires slot { taken self.old.made < length self.old.made.slots }
        requires batch { length self.old.made.nodes < 16 }
        ensures ok { OnOk result (self.new ≡ leaf_closed self.old child) }
        ensures done { self.new.done ≡ self.old.done }
        ensures later { IsLater self.old.made self.new.made }
        ensures read { NodeReadsBack self.old.made.draft (node_bytes self.old.made.draft) }
    {
        self.nodes.seal();
        self.children.push(child)?;
        Ok(())
    }

    /// Begins a leaf with this item at the next slot.
    fn put_first(&mut self, key: Key, body: &[u8]) -> Result<(), NodeAnswer>
        requires small { length body.now + 126 ≤ self.old.made.form.nodesize }
        ensures begun { OnOk result ((a : ℕ) × IsNextTaken self.old.made a × (self.new ≡ leaf_begun self.old a key body.now)) }
        ensures done { self.new.done ≡ self.old.done }
        ensures later { IsLater self.old.made self.new.made }
        ensures out { result ≡ Err NodeAnswer.OutOfSlots → length self.old.made.slots ≤ taken self.old.made }
    {
        let Some(address) = self.nodes.next_slot() else {
            return Err(NodeAnswer::OutOfSlots);
        };
        self.nodes.begin(0, address);
        self.nodes.put_item(key, body);
        self.hand = Some(Child {
            key,
            address,
            generation: self.nodes.generation(),
        });
        Ok(())
    }
}
