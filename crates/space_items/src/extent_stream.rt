ghost use Rattle.std.specs.Prelude.{◌≡◌, ◌≤◌, ◌<◌, ◌+◌, ◌*◌, ◌^◌, ◌∷◌, [], List, map, slice_get, IfOk, IfSome};
ghost use Rattle.std.specs.Option.{MatchOption, option_map};
ghost use Rattle.std.specs.List.{sum_by};
ghost use Rattle.btr_tree.specs.btr_node.NodeSize.{IsNodeSize};
ghost use Rattle.unit_plan.specs.Chunks.{AreChunks, FitsVolume};
ghost use Rattle.unit_plan.specs.declared.chunk.PlannedChunk.{PlannedChunk as PlannedChunkOf};
ghost use Rattle.space_items.specs.Extents.{extent_items, used_in};
ghost use Rattle.space_items.specs.Nodes.{AreNodes};
ghost use Rattle.space_items.specs.Stream.{ArePieces, FitsExtents, IsSmallNext, extents_ahead, first_of, group_of};

use crate::groups::{Group, Groups, groups_of};
use crate::node::{NodeList, TreeNode};
use crate::refs::{ExtentItemBody, node_body, piece_body};
use btr_item_list::key_of;
use btr_space_items::btrfs_format::key::{BLOCK_GROUP_ITEM, EXTENT_ITEM, METADATA_ITEM};
use btr_tree::{Key, Memory};
use std::alloc::Global;
use unit_plan::{Piece, PieceList, Plan, chunks_of};

/// The items of the extent tree, one after the other, ascending by key.
///
/// It holds its place and the block groups. The pieces and nodes are passed to each call, the same as at its making.
#[derive(Drop)]
pub struct ExtentStream {
    groups: Groups,
    group: usize,
    node: usize,
    piece: usize,
    key: Key,
    body: ExtentItemBody,
}

/// What comes next.
#[derive(Clone, Copy)]
enum Next {
    Group(Group),
    Node(TreeNode),
    Piece(Piece),
}

/// The items of the extent tree for these pieces and nodes, and for the chunks that the plan makes of a volume of so many
/// blocks. What its calls need of memory is taken here.
pub fn extents<P: PieceList>(
    alloc: Global,
    plan: &Plan,
    pieces: &P,
    nodes: &NodeList,
    blocks: u64,
    nodesize: u32,
) -> Result<ExtentStream, Memory>
    requires size { IsNodeSize nodesize }
    requires small { blocks ≤ 2 ^ 29 }
    requires units { FitsVolume plan.now blocks }
    requires pieces { ArePieces (P.pieces pieces.now) }
    requires nodes { AreNodes nodes.now }
    ensures fits { IfOk result (λ s. FitsExtents s (P.pieces pieces.now) nodes.now) }
    ensures all { (chunks : List PlannedChunkOf) → AreChunks plan.now blocks chunks → IfOk result (λ s. extents_ahead s (P.pieces pieces.now) nodes.now ≡ extent_items chunks (P.pieces pieces.now) nodes.now nodesize) }
    ensures groups { (chunks : List PlannedChunkOf) → AreChunks plan.now blocks chunks → IfOk result (λ s. s.groups ≡ map (group_of (P.pieces pieces.now) nodes.now nodesize) chunks) }
    ensures used { IfOk result (λ s. sum_by (λ g. g.used) s.groups < 2 ^ 64) }
{
    let chunks = chunks_of(alloc, plan, blocks)?;
    let groups = groups_of(alloc, &chunks, pieces, nodes, nodesize)?;
    Ok(ExtentStream {
        groups,
        group: 0,
        node: 0,
        piece: 0,
        key: key_of(0, 0, 0),
        body: ExtentItemBody::empty(),
    })
}

impl Next {
    ghost use Rattle.space_items.specs.Stream.{IsSmallNext, item_of_next};

    /// The key of its item.
    fn key(&self) -> Key
        requires { IsSmallNext self.now }
        ensures { result ≡ (item_of_next self.now).0 }
    {
        match self {
            Next::Group(group) => key_of(
                4096 * group.chunk.start,
                BLOCK_GROUP_ITEM,
                4096 * group.chunk.length,
            ),
            Next::Node(node) => key_of(node.address, METADATA_ITEM, node.level as u64),
            Next::Piece(piece) => key_of(4096 * piece.place, EXTENT_ITEM, 4096 * piece.count),
        }
    }

    /// The body of its item.
    fn body(&self) -> ExtentItemBody
        requires { IsSmallNext self.now }
        ensures { result ≡ (item_of_next self.now).1 }
    {
        match self {
            Next::Group(group) => ExtentItemBody::of(&group.body()),
            Next::Node(node) => node_body(*node),
            Next::Piece(piece) => piece_body(piece),
        }
    }
}

/// The first of two by key.
fn first_of(a: Option<Next>, b: Option<Next>) -> Option<Next>
    requires a { IfSome a IsSmallNext }
    requires b { IfSome b IsSmallNext }
    ensures { result ≡ first_of a b }
{
    match (a, b) {
        (None, other) | (other, None) => other,
        (Some(a), Some(b)) => Some(if a.key() < b.key() { a } else { b }),
    }
}

impl ExtentStream {
    ghost use Rattle.space_items.specs.Stream.{ComesTo, IsSmallNext, extent_standing, item_of_next, passed, place_of};
    ghost use Rattle.space_items.specs.declared.extent_stream.Next.TheVariants as next;

    /// Goes to the next item, which stands then; false after the last one.
    pub fn advance<P: PieceList>(&mut self, pieces: &P, nodes: &NodeList) -> bool
        requires fits { FitsExtents self.old (P.pieces pieces.now) nodes.now }
        ensures fits { FitsExtents self.new (P.pieces pieces.now) nodes.now }
        ensures groups { self.new.groups ≡ self.old.groups }
        ensures next { ComesTo result (extents_ahead self.old (P.pieces pieces.now) nodes.now) (extent_standing self.new) (extents_ahead self.new (P.pieces pieces.now) nodes.now) }
    {
        let Some(next) = self.next_of(pieces, nodes) else {
            return false;
        };
        self.key = next.key();
        self.body = next.body();
        self.pass(next);
        true
    }

    /// The first item that was not given yet.
    fn next_of<P: PieceList>(&self, pieces: &P, nodes: &NodeList) -> Option<Next>
        requires fits { FitsExtents self.now (P.pieces pieces.now) nodes.now }
        ensures small { IfSome result IsSmallNext }
        ensures room { IfSome result (λ n. place_of self.now n + 1 < 2 ^ 64) }
        ensures fits { IfSome result (λ n. FitsExtents (passed self.now n) (P.pieces pieces.now) nodes.now) }
        ensures next { MatchOption result (extents_ahead self.now (P.pieces pieces.now) nodes.now ≡ []) (λ n. extents_ahead self.now (P.pieces pieces.now) nodes.now ≡ item_of_next n ∷ extents_ahead (passed self.now n) (P.pieces pieces.now) nodes.now) }
    {
        let other = first_of(self.next_node(nodes), self.next_piece(pieces));
        first_of(self.next_group(), other)
    }

    /// The next block group.
    fn next_group(&self) -> Option<Next>
        ensures there { result ≡ option_map next.Group (slice_get self.now.groups self.now.group) }
        ensures room { IfSome result (λ _. self.now.group + 1 < 2 ^ 64) }
    {
        if self.group < self.groups.len() {
            Some(Next::Group(self.groups.get(self.group)))
        } else {
            None
        }
    }

    /// The next node.
    fn next_node(&self, nodes: &NodeList) -> Option<Next>
        ensures there { result ≡ option_map next.Node (slice_get nodes.now self.now.node) }
        ensures room { IfSome result (λ _. self.now.node + 1 < 2 ^ 64) }
    {
        if self.node < nodes.len() {
            Some(Next::Node(nodes.get(self.node)))
        } else {
            None
        }
    }

    /// The next piece.
    fn next_piece<P: PieceList>(&self, pieces: &P) -> Option<Next>
        ensures there { result ≡ option_map next.Piece (slice_get (P.pieces pieces.now) self.now.piece) }
        ensures room { IfSome result (λ _. self.now.piece + 1 < 2 ^ 64) }
    {
        if self.piece < pieces.len() {
            Some(Next::Piece(*pieces.get(self.piece)))
        } else {
            None
        }
    }

    /// The item is given.
    fn pass(&mut self, next: Next)
        requires { place_of self.old next + 1 < 2 ^ 64 }
        ensures { self.new ≡ passed self.old next }
    {
        match next {
            Next::Group(_) => self.group += 1,
            Next::Node(_) => self.node += 1,
            Next::Piece(_) => self.piece += 1,
        }
    }

    /// The key of the item that stands.
    pub fn key(&self) -> Key
        ensures { result ≡ (extent_standing self.now).0 }
    {
        self.key
    }

    /// The body of the item that stands.
    pub fn body(&self) -> &[u8]
        ensures { result.now ≡ (extent_standing self.now).1 }
    {
        self.body.bytes()
    }

    /// The bytes that extents take of all chunks.
    pub fn used(&self) -> u64
        requires { sum_by (λ g. g.used) self.now.groups < 2 ^ 64 }
        ensures { result ≡ sum_by (λ g. g.used) self.now.groups }
    {
        let mut used = 0;
        for i in 0..self.groups.len() {
            used += self.groups.get(i).used;
        }
        used
    }
}
