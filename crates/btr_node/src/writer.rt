ghost use Rattle.std.specs.Prelude.{◌≡◌, ◌≤◌, ◌<◌, ◌+◌, ◌↔◌, ◌++◌, ◌∷◌, [], length, IfOk, IsErr, OnOk, OnErr, IsTrue};
ghost use Rattle.std.specs.Borrow.{sem};
ghost use Rattle.std.specs.Io.BufRead.{Rests};
ghost use Rattle.btr_node.specs.Draft.{room, node_bytes, IsBlank, started_for};
ghost use Rattle.btr_node.specs.Inner.{IsBtrfsInner, first_keys, children_in};
ghost use Rattle.btr_node.specs.Leaf.{IsBtrfsLeaf, keys_of, items_in};
ghost use Rattle.btr_node.specs.NodeSize.{IsNodeSize};
ghost use Rattle.btr_node.specs.Order.{Ascends};
ghost use Rattle.btr_node.specs.contracts.writer.NodeWriter.{the_row};

use crate::buffer::{add_child, add_item, clear, seal, zeroed};
use crate::child::Child;
use crate::expect::Expect;
use crate::head::Head;
use crate::item::BtrItemHead;
use btr_keys::Key;
use btr_keys::btrfs_format::flag::MIXED_BACKREF_REV;
use btr_keys::btrfs_format::size::{HEADER_SIZE, ITEM_SIZE, KEY_PTR_SIZE};
use csum_kinds::SumKind;
use refusals::Memory;
use std::alloc::Global;
use std::marker::Model;
use thiserror::Error;

/// The node has no room for this.
#[derive(Clone, Copy, Debug, PartialEq, Eq, Error)]
#[error("node is full")]
pub struct Full;

/// A node that is being written. Its buffer is used again for the next one.
#[derive(Drop)]
pub struct NodeWriter {
    buffer: Vec<u8>,
    started: bool,
    want: Expect,
    chunk_tree: [u8; 16],
    items: usize,
    children: usize,
    low: usize,
}

impl Model for NodeWriter {
    ghost use Rattle.btr_node.specs.Draft.{Draft};
    ghost use Rattle.btr_node.specs.Writer.{held, HoldsDraft};

    ghost Value = { Draft };

    ghost view = { λ a. held a.buffer.items a.started a.want a.chunk_tree a.items a.children };

    ghost invariant = { λ a. HoldsDraft a.buffer.items a.low (held a.buffer.items a.started a.want a.chunk_tree a.items a.children) };
}

impl NodeWriter {
    /// A writer of nodes of this size in bytes, 4096, 8192, 16384, 32768 or 65536.
    pub fn new(alloc: Global, nodesize: u32) -> Result<NodeWriter, Memory>
        requires { IsNodeSize nodesize }
        ensures { IfOk result (IsBlank nodesize) }
    {
        Ok(NodeWriter {
            buffer: zeroed(alloc, nodesize as usize)?,
            started: false,
            want: Expect {
                address: 0,
                fsid: [0; 16],
                owner: 0,
                level: 0,
                generation: 0,
                sums: SumKind::Crc32c,
            },
            chunk_tree: [0; 16],
            items: 0,
            children: 0,
            low: nodesize as usize - HEADER_SIZE,
        })
    }

    /// Begins a node of which its parent will say `want`. What the writer held before is gone.
    pub fn start(&mut self, want: &Expect, chunk_tree: [u8; 16])
        ensures { self.new ≡ started_for self.old.nodesize want.now chunk_tree }
    {
        self.begin(*want, chunk_tree);
    }

    fn begin(&mut self, want: Expect, chunk_tree: [u8; 16])
        ensures { self.new ≡ started_for self.old.nodesize want chunk_tree }
    {
        clear(&mut self.buffer);
        self.started = true;
        self.want = want;
        self.chunk_tree = chunk_tree;
        self.items = 0;
        self.children = 0;
        self.low = self.buffer.len() - HEADER_SIZE;
    }

    /// How many bytes are left for items with their heads of 25 bytes, or for children of 33 bytes.
    pub fn room(&self) -> usize
        ensures { result ≡ room self.now }
    {
        self.low - BtrItemHead::SIZE * self.items - Child::SIZE * self.children
    }

    /// Adds an item to a leaf, behind those that it has. Full comes exactly where the room is below 25 bytes and the
    /// body's, and then nothing changed.
    pub fn push(&mut self, key: Key, body: &[u8]) -> Result<(), Full>
        requires started { IsTrue self.old.started }
        requires leaf { self.old.want.level ≡ 0 }
        requires order { Ascends (keys_of self.old.items ++ key ∷ []) }
        ensures full { IsErr result ↔ (room self.old < ITEM_SIZE + length body.now) }
        ensures ok { OnOk result (self.new ≡ record self.old { items = self.old.items ++ (key, body.now) ∷ [] }) }
        ensures err { OnErr result (self.new ≡ self.old) }
    {
        if self.room() < BtrItemHead::SIZE + body.len() {
            return Err(Full);
        }
        add_item(&mut self.buffer, self.items, self.low, key, body);
        self.items += 1;
        self.low -= body.len();
        Ok(())
    }

    /// Adds a child to an inner node, behind those that it has. Full comes exactly where the room is below 33 bytes,
    /// and then nothing changed.
    pub fn push_child(&mut self, child: Child) -> Result<(), Full>
        requires started { IsTrue self.old.started }
        requires inner { 1 ≤ self.old.want.level }
        requires order { Ascends (first_keys self.old.children ++ child.key ∷ []) }
        ensures full { IsErr result ↔ (room self.old < KEY_PTR_SIZE) }
        ensures ok { OnOk result (self.new ≡ record self.old { children = self.old.children ++ child ∷ [] }) }
        ensures err { OnErr result (self.new ≡ self.old) }
    {
        if self.room() < Child::SIZE {
            return Err(Full);
        }
        add_child(&mut self.buffer, self.children, &child);
        self.children += 1;
        Ok(())
    }

    /// The bytes of the node. A view reads them as what was pushed. The writer holds the node still.
    pub fn finish(&mut self) -> &[u8]
        requires started { IsTrue self.old.started }
        requires children { 1 ≤ self.old.want.level → 1 ≤ length self.old.children }
        ensures bytes { result.now ≡ node_bytes self.old }
        ensures size { length result.now ≡ self.old.nodesize }
        ensures leaf { self.old.want.level ≡ 0 → IsBtrfsLeaf self.old.want result.now }
        ensures items { self.old.want.level ≡ 0 → items_in result.now ≡ self.old.items }
        ensures inner { 1 ≤ self.old.want.level → IsBtrfsInner self.old.want result.now }
        ensures links { 1 ≤ self.old.want.level → children_in result.now ≡ self.old.children }
        ensures* after { sem 𝓛 (Rests the_row self.entry (λ new. new ≡ self.old)) }
    {
        let head = Head {
            fsid: self.want.fsid,
            address: self.want.address,
            flags: [1, 0, 0, 0, 0, 0, 0],
            revision: MIXED_BACKREF_REV,
            chunk_tree: self.chunk_tree,
            generation: self.want.generation,
            owner: self.want.owner,
            count: (self.items + self.children) as u32,
            level: self.want.level,
        };
        seal(&mut self.buffer, &head, self.want.sums);
        self.buffer.as_slice()
    }
}
