ghost use Rattle.std.specs.Prelude.{◌≡◌, ◌≤◌, ◌<◌, ◌+◌, ◌*◌, ◌++◌, ◌∷◌, [], List, length, reverse, vec_capacity, IfOk, IfErr, IfNone, IfSome, OnOk, OnErr, Contains, MatchResult};
ghost use Rattle.std.specs.Option.{option_to_list};
ghost use Rattle.btr_node.specs.Head.{head_in};
ghost use Rattle.btr_node.specs.Leaf.{HasLeafLayout};
ghost use Rattle.btr_node.specs.NodeSize.{IsNodeSize};
ghost use Rattle.btr_node.specs.outside.Fault.{HasCauseOf};
ghost use Rattle.btr_node.specs.outside.History.{Image, OverTold};
ghost use Rattle.btr_reader_walk.specs.declared.map.MapRange.{MapRange as RangeOf};
ghost use Rattle.btr_reader_walk.specs.Events.{may_be_bare};
ghost use Rattle.btr_reader_walk.specs.Node.{content_damages};
ghost use Rattle.btr_reader_walk.specs.Nodes.{child_entries, root_entry, tree_nodes, wanted};
ghost use Rattle.btr_reader_walk.specs.Stack.{fan_out, weight};
ghost use Rattle.btr_reader_walk.specs.Visits.{HasRoom, Opens, Refuses, Takes, ahead, nodes_fuel};
ghost use Rattle.btr_reader_walk.specs.Walks.{IsBadOrFault, LieOn};

use crate::blocks::read_node;
use crate::map::MapRange;
use crate::node::{check_leaf, open_inner};
use crate::node_walker::NodeWalker;
use crate::tree::{NodeEntry, NodePointer, Owners, Tree};
use btr_node::btrfs_format::size::KEY_PTR_SIZE;
use btr_node::{BlockSource, BtrAnswer, BtrRefusal, BtrRule, Expect, Head, Memory};
use std::alloc::Global;

impl NodeWalker {
    /// A walk that has not begun, over a tree that may have the nodes of these owners. Memory is taken here alone: a
    /// buffer for one node, and a stack with room for all children of one node on each level.
    pub fn new(alloc: Global, tree: Tree, owners: Owners) -> Result<NodeWalker, Memory>
        requires size { IsNodeSize tree.form.nodesize }
        requires high { tree.root.level ≤ 7 }
        ensures ahead { IfOk result (λ w. (image : Image) (ranges : List RangeOf) → ahead image ranges w ≡ tree_nodes image ranges tree owners) }
        ensures pending { IfOk result (λ w. w.pending.items ≡ root_entry tree ∷ []) }
        ensures tree { IfOk result (λ w. w.tree ≡ tree) }
        ensures owners { IfOk result (λ w. w.owners ≡ owners) }
    {
        let nodesize = tree.form.nodesize as usize;
        let root = NodeEntry {
            pointer: tree.root,
            key: None,
        };
        Ok(NodeWalker {
            tree,
            owners,
            pending: stack_of(
                alloc,
                root,
                tree.root.level as usize * (nodesize / KEY_PTR_SIZE) + 1,
            )?,
            bytes: zeroed(alloc, nodesize)?,
        })
    }

    /// Takes the next node. None after the last.
    ///
    /// It is not read yet. The nodes below it are met only if it is opened: a caller that knows them already goes on.
    pub fn take(&mut self) -> Option<NodeEntry>
        ensures takes { (image : Image) (ranges : List RangeOf) → Takes result self.old self.new image ranges }
        ensures pops { self.old.pending.items ≡ self.new.pending.items ++ option_to_list result }
        ensures over { IfNone result (self.old.pending.items ≡ []) }
        ensures tree { self.new.tree ≡ self.old.tree }
        ensures owners { self.new.owners ≡ self.old.owners }
        ensures bytes { self.new.bytes ≡ self.old.bytes }
        ensures room { IfSome result (HasRoom self.new) }
        // It ends.
        ensures ends { IfSome result (λ e. weight self.old.tree.form.nodesize e.pointer.level + nodes_fuel self.new ≡ nodes_fuel self.old) }
    {
        let entry = self.pending.pop()?;
        Some(entry)
    }

    /// Reads the node that was taken last, by the map `ranges`. The nodes below it come next.
    ///
    /// Where it breaks a rule, [`BtrAnswer::Refused`] tells which, and nothing is below it: the walk may go on with the next
    /// node. After [`BtrAnswer::Fault`] it may be opened again.
    pub fn open<S: BlockSource>(
        &mut self,
        src: &mut S,
        ranges: &[MapRange],
        entry: &NodeEntry,
    ) -> Result<(), BtrAnswer>
        requires room { HasRoom self.old entry.now }
        requires inside { LieOn (S.size src.old) ranges.now }
        ensures kept { S.kept src.old src.new }
        ensures cause { HasCauseOf BtrAnswer.Fault (S.faults src.old) (S.faults src.new) result }
        ensures answers { IfErr result IsBadOrFault }
        ensures opens { OverTold S.tells (S.blocks src.old) (λ image. MatchResult result (λ _. Opens entry.now self.old self.new image ranges.now) (Refuses entry.now self.old self.new image ranges.now)) }
        ensures tree { self.new.tree ≡ self.old.tree }
        ensures owners { self.new.owners ≡ self.old.owners }
        ensures pushes { OnOk result (self.new.pending.items ≡ self.old.pending.items ++ reverse (child_entries entry.now.pointer.level self.new.bytes.items)) }
        ensures unchanged { OnErr result (self.new.pending.items ≡ self.old.pending.items) }
        ensures layout { OnOk result (entry.now.pointer.level ≡ 0 → HasLeafLayout self.new.bytes.items) }
        // It ends, whatever the source gives.
        ensures ends { OnOk result (nodes_fuel self.new < weight self.old.tree.form.nodesize entry.now.pointer.level + nodes_fuel self.old) }
    {
        read_node(src, ranges, entry.pointer.address, &mut self.bytes)?;
        match self.judge(&entry.pointer) {
            Ok(()) => Ok(()),
            Err(rule) => Err(BtrAnswer::Refused(BtrRefusal::BadBtrfs {
                address: entry.pointer.address,
                rule,
            })),
        }
    }

    /// The bytes of the node that was opened last.
    pub fn bytes(&self) -> &[u8]
        ensures { result.now ≡ self.now.bytes.items }
    {
        self.bytes.as_slice()
    }

    /// What is known of the node that was read into the buffer.
    fn want(&self, p: &NodePointer) -> Expect
        ensures { result ≡ wanted self.now.tree self.now.owners p.now self.now.bytes.items }
    {
        let mut want = self.tree.want(p);
        want.owner = self
            .owners
            .asked(self.tree.owner, Head::of(self.bytes.as_slice()).owner);
        want
    }

    /// A rule that the node in the buffer breaks; or its children are put onto the stack.
    fn judge(&mut self, p: &NodePointer) -> Result<(), BtrRule>
        requires room { length self.old.pending.items + p.now.level * fan_out self.old.tree.form.nodesize ≤ self.old.tree.root.level * fan_out self.old.tree.form.nodesize }
        ensures damages { MatchResult result (λ _. content_damages (wanted self.old.tree self.old.owners p.now self.old.bytes.items) (may_be_bare self.old.tree.root) self.old.bytes.items ≡ [])
            (λ rule. Contains (content_damages (wanted self.old.tree self.old.owners p.now self.old.bytes.items) (may_be_bare self.old.tree.root) self.old.bytes.items) rule) }
        ensures tree { self.new.tree ≡ self.old.tree }
        ensures owners { self.new.owners ≡ self.old.owners }
        ensures bytes { self.new.bytes.items ≡ self.old.bytes.items }
        ensures pushes { OnOk result (self.new.pending.items ≡ self.old.pending.items ++ reverse (child_entries p.now.level self.old.bytes.items)) }
        ensures unchanged { OnErr result (self.new.pending.items ≡ self.old.pending.items) }
        ensures layout { OnOk result (p.now.level ≡ 0 → HasLeafLayout self.old.bytes.items) }
        ensures ends { OnOk result (nodes_fuel self.new < weight self.old.tree.form.nodesize p.now.level + nodes_fuel self.old) }
    {
        let want = self.want(p);
        let bytes = self.bytes.as_slice();
        if p.level == 0 {
            return check_leaf(bytes, &want, self.tree.may_be_bare());
        }
        open_inner(bytes, &want, &mut self.pending)
    }
}

/// A stack with one node and room for so many.
fn stack_of(alloc: Global, root: NodeEntry, room: usize) -> Result<Vec<NodeEntry>, Memory>
    ensures items { IfOk result (λ stack. stack.items ≡ root ∷ []) }
    ensures capacity { IfOk result (λ stack. room ≤ vec_capacity stack) }
{
    let mut stack = Vec::with_capacity(alloc, room)?;
    stack.push(root)?;
    Ok(stack)
}

/// A buffer of so many zeros.
fn zeroed(alloc: Global, n: usize) -> Result<Vec<u8>, Memory>
    ensures { IfOk result (λ bytes. length bytes.items ≡ n) }
{
    let mut bytes = Vec::new(alloc);
    bytes.resize(n, 0)?;
    Ok(bytes)
}
