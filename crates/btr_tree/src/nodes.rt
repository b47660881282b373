ghost use Rattle.std.specs.Prelude.{◌≡◌, ◌≤◌, ◌<◌, ◌+◌, ◌*◌, ◌^◌, ◌++◌, ◌∷◌, [], ℕ, List, Some, All, length, take, drop, slice_get, vec_capacity, IfOk, OnOk, IsTrue};
ghost use Rattle.btr_node.specs.outside.Fault.{HasCause};
ghost use Rattle.btr_node.specs.outside.History.{reads, WritesOnly};
ghost use Rattle.btr_tree.specs.Writing.{IsInSlots};
ghost use Rattle.btr_node.specs.Draft.{room, node_bytes, IsDraft};
ghost use Rattle.btr_node.specs.Inner.{first_keys};
ghost use Rattle.btr_node.specs.Leaf.{keys_of};
ghost use Rattle.btr_node.specs.NodeSize.{IsNodeSize};
ghost use Rattle.btr_node.specs.Order.{Ascends};
ghost use Rattle.btr_tree.specs.Building.{IsFresh, begun_at, with_node, with_item, with_child, flushed, taken, Goes, IsLater, NodeReadsBack, AreSlots, StandAt};
ghost use Rattle.btr_tree.specs.Packing.{fan_out};

use crate::NodeSlots;
use crate::bound::HEAD_SIZE;
use crate::counter::CHILD_SIZE;
use crate::write::write_node;
use btr_node::btrfs_format::size::{ITEM_SIZE, KEY_PTR_SIZE};
use btr_node::{Access, Child, Disk, Expect, Fault, Key, Memory, NodeWriter};
use btr_reader_walk::Form;
use std::alloc::Global;
use std::marker::Model;

/// How many nodes are held at most before they are written.
const BATCH: usize = 16;

/// The nodes of a tree that were made, of which the last ones are held and those before them were written, and the one in
/// hand.
#[derive(Drop)]
pub struct Nodes {
    form: Form,
    owner: u64,
    generation: u64,
    chunk_tree: [u8; 16],
    slots: NodeSlots,
    writer: NodeWriter,
    bytes: Vec<u8>,
    written: usize,
    held: usize,
}

impl Model for Nodes {
    ghost use Rattle.std.specs.Prelude.{vec_capacity};
    ghost use Rattle.btr_tree.specs.Building.{Made, IsStock, pieces_of};

    ghost Value = { Made };

    ghost view = { λ n. record {
      form = n.form;
      owner = n.owner;
      generation = n.generation;
      chunk_tree = n.chunk_tree;
      slots = n.slots.addresses;
      offsets = n.slots.offsets;
      written = n.written;
      nodes = pieces_of n.form.nodesize n.held n.bytes.items;
      draft = n.writer;
    } };

    ghost invariant = { λ n. IsStock n.form.nodesize n.written n.held (vec_capacity n.bytes) n.writer n.bytes.items n.slots.addresses n.slots.offsets };
}

impl Nodes {
    /// No node yet, of a tree with this number and generation. It takes the memory for the nodes that are held.
    pub fn new(
        alloc: Global,
        form: Form,
        owner: u64,
        generation: u64,
        chunk_tree: [u8; 16],
        slots: NodeSlots,
    ) -> Result<Nodes, Memory>
        requires { IsNodeSize form.nodesize }
        ensures { IfOk result (IsFresh form owner generation chunk_tree slots.addresses slots.offsets) }
    {
        let _slots = slots.len();
        Ok(Nodes {
            form,
            owner,
            generation,
            chunk_tree,
            slots,
            writer: NodeWriter::new(alloc, form.nodesize)?,
            bytes: Vec::with_capacity(alloc, BATCH * form.nodesize as usize)?,
            written: 0,
            held: 0,
        })
    }

    /// How many nodes were made.
    pub fn len(&self) -> usize
        ensures { result ≡ taken self.now }
    {
        self.written + self.held
    }

    /// The address of the next node, if a slot is left.
    pub fn next_slot(&self) -> Option<u64>
        ensures { result ≡ slice_get self.now.slots (taken self.now) }
    {
        let next = self.len();
        if next < self.slots.len() {
            Some(self.slots.address(next))
        } else {
            None
        }
    }

    /// The generation of the nodes.
    pub fn generation(&self) -> u64
        ensures { result ≡ self.now.generation }
    {
        self.generation
    }

    /// How many children an inner node has at most.
    pub fn fan_out(&self) -> usize
        ensures exact { result ≡ fan_out self.now.form.nodesize }
        ensures wide { 121 ≤ result }
        ensures narrow { result < 2 ^ 16 }
    {
        (self.form.nodesize as usize - HEAD_SIZE as usize) / CHILD_SIZE as usize
    }

    /// Begins a node of this level at a slot.
    pub fn begin(&mut self, level: u8, address: u64)
        ensures { self.new ≡ begun_at self.old level address }
    {
        let want = Expect {
            address,
            fsid: self.form.fsid,
            owner: self.owner,
            level,
            generation: self.generation,
            sums: self.form.sums,
        };
        self.writer.start(&want, self.chunk_tree);
    }

    /// How many bytes are left in the node in hand.
    pub fn room(&self) -> usize
        ensures { result ≡ room self.now.draft }
    {
        self.writer.room()
    }

    /// Puts an item into the leaf in hand, which has room for it.
    pub fn put_item(&mut self, key: Key, body: &[u8])
        requires started { IsTrue self.old.draft.started }
        requires leaf { self.old.draft.want.level ≡ 0 }
        requires order { Ascends (keys_of self.old.draft.items ++ key ∷ []) }
        requires room { ITEM_SIZE + length body.now ≤ room self.old.draft }
        ensures { self.new ≡ with_item self.old key body.now }
    {
        let _ = self.writer.push(key, body);
    }

    /// Puts a child into the inner node in hand, which has room for it.
    pub fn put_child(&mut self, child: Child)
        requires started { IsTrue self.old.draft.started }
        requires inner { 1 ≤ self.old.draft.want.level }
        requires order { Ascends (first_keys self.old.draft.children ++ child.key ∷ []) }
        requires room { KEY_PTR_SIZE ≤ room self.old.draft }
        ensures { self.new ≡ with_child self.old child }
    {
        let _ = self.writer.push_child(child);
    }

    /// Makes the node in hand, which is then held. The node in hand stays as it is.
    pub fn seal(&mut self)
        requires started { IsTrue self.old.draft.started }
        requires children { 1 ≤ self.old.draft.want.level → 1 ≤ length self.old.draft.children }
        requires slot { taken self.old < length self.old.slots }
        requires batch { length self.old.nodes < 16 }
        ensures made { self.new ≡ with_node self.old (node_bytes self.old.draft) }
        ensures read { NodeReadsBack self.old.draft (node_bytes self.old.draft) }
    {
        append_node(&mut self.bytes, &mut self.writer);
        self.held += 1;
    }

    /// The slots that no node took, in order.
    pub fn rest(self) -> NodeSlots
        ensures { result ≡ record { addresses = drop (taken self) self.slots; offsets = drop (taken self) self.offsets } }
    {
        self.slots.without_first(self.written + self.held)
    }

    /// Writes the nodes that are held, where no more may be held.
    pub fn make_room<D: Disk>(&mut self, disk: &mut D) -> Result<(), Fault>
        requires open { D.opened disk.old ≡ Some Access.Write }
        requires slots { AreSlots self.old.form.nodesize self.old.offsets }
        requires in_range { All (λ a. a + self.old.form.nodesize ≤ 4096 * D.size disk.old) self.old.offsets }
        ensures open { D.opened disk.new ≡ D.opened disk.old }
        ensures size { D.size disk.new ≡ D.size disk.old }
        ensures borrow { D.borrow disk.new ≡ D.borrow disk.old }
        ensures room { OnOk result (length self.new.nodes < 16) }
        ensures later { IsLater self.old self.new }
        ensures goes { OnOk result (Goes D.tells (reads (D.history disk.old)) (reads (D.history disk.new)) self.old self.new (λ m n. n ≡ m)) }
        ensures only { IsTrue D.tells → WritesOnly (λ b _. IsInSlots self.old.form.nodesize (take (taken self.new) self.old.offsets) b) (D.history disk.old) (D.history disk.new) }
        ensures cause { HasCause (D.faults disk.old) (D.faults disk.new) result }
    {
        if self.held < BATCH {
            return Ok(());
        }
        self.flush(disk)
    }

    /// Writes the nodes that are held to their slots.
    pub fn flush<D: Disk>(&mut self, disk: &mut D) -> Result<(), Fault>
        requires open { D.opened disk.old ≡ Some Access.Write }
        requires slots { AreSlots self.old.form.nodesize self.old.offsets }
        requires in_range { All (λ a. a + self.old.form.nodesize ≤ 4096 * D.size disk.old) self.old.offsets }
        ensures open { D.opened disk.new ≡ D.opened disk.old }
        ensures size { D.size disk.new ≡ D.size disk.old }
        ensures borrow { D.borrow disk.new ≡ D.borrow disk.old }
        ensures flushed { OnOk result (self.new ≡ flushed self.old) }
        ensures later { IsLater self.old self.new }
        ensures goes { OnOk result (Goes D.tells (reads (D.history disk.old)) (reads (D.history disk.new)) self.old self.new (λ m n. n ≡ m)) }
        ensures only { IsTrue D.tells → WritesOnly (λ b _. IsInSlots self.old.form.nodesize (take (taken self.new) self.old.offsets) b) (D.history disk.old) (D.history disk.new) }
        ensures cause { HasCause (D.faults disk.old) (D.faults disk.new) result }
    {
        self.write(disk)?;
        self.let_go();
        Ok(())
    }

    /// Lets the nodes that are held go, which were written.
    fn let_go(&mut self)
        ensures { self.new ≡ flushed self.old }
    {
        self.written += self.held;
        self.held = 0;
        self.bytes.clear();
    }

    /// Writes the nodes that are held to their slots, and keeps them.
    fn write<D: Disk>(&self, disk: &mut D) -> Result<(), Fault>
        requires open { D.opened disk.old ≡ Some Access.Write }
        requires slots { AreSlots self.now.form.nodesize self.now.offsets }
        requires in_range { All (λ a. a + self.now.form.nodesize ≤ 4096 * D.size disk.old) self.now.offsets }
        ensures open { D.opened disk.new ≡ D.opened disk.old }
        ensures size { D.size disk.new ≡ D.size disk.old }
        ensures borrow { D.borrow disk.new ≡ D.borrow disk.old }
        ensures only { IsTrue D.tells → WritesOnly (λ b _. IsInSlots self.now.form.nodesize (take (taken self.now) self.now.offsets) b) (D.history disk.old) (D.history disk.new) }
        ensures written { IsTrue D.tells → OnOk result ((front : List (List ℕ)) → length front ≡ self.now.written
            → StandAt (reads (D.history disk.old)) self.now.form.nodesize self.now.offsets front
            → StandAt (reads (D.history disk.new)) self.now.form.nodesize self.now.offsets (front ++ self.now.nodes)) }
        ensures cause { HasCause (D.faults disk.old) (D.faults disk.new) result }
    {
        let size = self.form.nodesize as usize;
        for k in 0..self.held {
            let at = size * k;
            write_node(
                disk,
                self.slots.offset(self.written + k),
                &self.bytes[at..at + size],
            )?;
        }
        Ok(())
    }
}

/// Appends the bytes of the node in hand, for which there is room.
fn append_node(bytes: &mut Vec<u8>, writer: &mut NodeWriter)
    requires started { IsTrue writer.old.started }
    requires children { 1 ≤ writer.old.want.level → 1 ≤ length writer.old.children }
    requires right { IsDraft writer.old }
    requires room { length bytes.old.items + writer.old.nodesize ≤ vec_capacity bytes.old }
    ensures appended { bytes.new.items ≡ bytes.old.items ++ node_bytes writer.old }
    ensures room { vec_capacity bytes.old ≤ vec_capacity bytes.new }
    ensures read { NodeReadsBack writer.old (node_bytes writer.old) }
    ensures same { writer.new ≡ writer.old }
{
    let _ = bytes.extend_from_slice(writer.finish());
}
