ghost use Rattle.std.specs.Prelude.{◌≡◌, ◌≤◌, ◌<◌, ◌+◌, ◌*◌, ◌^◌, map, All, AllPairs, IfOk};
ghost use Rattle.space_items.specs.Extents.{group_item, bytes_of_nodes, bytes_of_pieces};
ghost use Rattle.space_items.specs.Nodes.{AreNodes};
ghost use Rattle.space_items.specs.Stream.{ArePieces, IsSmallGroup, LieBefore, group_of};

use crate::chunk_lists::chunk_kind;
use crate::node::NodeList;
use btr_space_items::BlockGroup;
use btr_space_items::btrfs_format::object::FIRST_CHUNK_TREE_OBJECTID;
use btr_tree::{CopyList, Memory};
use std::alloc::Global;
use unit_plan::{Chunks, PieceList, PlannedChunk};

/// A chunk, and how many bytes of it extents take.
#[derive(Clone, Copy)]
pub struct Group {
    pub chunk: PlannedChunk,
    pub used: u64,
}

/// Block groups, as a list.
pub type Groups = CopyList<Group>;

impl Group {
    /// The body of the group's item.
    pub fn body(self) -> [u8; 24]
        ensures { result ≡ (group_item self.used self.chunk).1 }
    {
        let group = BlockGroup {
            used: self.used,
            chunk_objectid: FIRST_CHUNK_TREE_OBJECTID,
            flags: chunk_kind(self.chunk.role),
        };
        group.to_bytes()
    }

    /// The first byte behind the chunk.
    fn end(self) -> u64
        requires { IsSmallGroup self }
        ensures { result ≡ 4096 * (self.chunk.start + self.chunk.length) }
    {
        4096 * (self.chunk.start + self.chunk.length)
    }
}

/// The block groups of chunks. Pieces, nodes and chunks ascend by address, so each list is gone over once.
pub fn groups_of<P: PieceList>(
    alloc: Global,
    chunks: &Chunks,
    pieces: &P,
    nodes: &NodeList,
    nodesize: u32,
) -> Result<Groups, Memory>
    requires size { nodesize ≤ 65536 }
    requires chunks { AllPairs (λ c d. c.start + c.length ≤ d.start) chunks.now }
    requires inside { All (λ c. c.start + c.length ≤ 2 ^ 29) chunks.now }
    requires pieces { ArePieces (P.pieces pieces.now) }
    requires nodes { AreNodes nodes.now }
    ensures { IfOk result (λ groups. groups ≡ map (group_of (P.pieces pieces.now) nodes.now nodesize) chunks.now) }
{
    let mut groups = Groups::new(alloc);
    let (mut piece, mut node) = (0, 0);
    for i in 0..chunks.len() {
        let chunk = chunks.get(i);
        let mut group = Group { chunk, used: 0 };
        piece = count_pieces(pieces, piece, &mut group);
        node = count_nodes(nodes, node, nodesize, &mut group);
        groups.add(group)?;
    }
    Ok(groups)
}

/// Adds the pieces from one on that lie in the group, and tells which is the next. Those before it lie before the group.
fn count_pieces<P: PieceList>(pieces: &P, first: usize, group: &mut Group) -> usize
    requires small { IsSmallGroup group.old }
    requires pieces { ArePieces (P.pieces pieces.now) }
    requires none { group.old.used ≡ 0 }
    requires before { LieBefore (λ p. 4096 * p.place) (4096 * group.old.chunk.start) (P.pieces pieces.now) first }
    ensures chunk { group.new.chunk ≡ group.old.chunk }
    ensures used { group.new.used ≡ bytes_of_pieces (P.pieces pieces.now) group.old.chunk }
    ensures few { group.new.used ≤ 2 ^ 41 }
    ensures before { LieBefore (λ p. 4096 * p.place) (4096 * (group.old.chunk.start + group.old.chunk.length)) (P.pieces pieces.now) result }
{
    let mut next = first;
    while next < pieces.len() && 4096 * pieces.get(next).place < group.end() {
        let piece = pieces.get(next);
        if piece.place >= group.chunk.start {
            group.used += 4096 * piece.count;
        }
        next += 1;
    }
    next
}

/// Adds the nodes from one on that lie in the group, and tells which is the next. Those before it lie before the group.
fn count_nodes(nodes: &NodeList, first: usize, nodesize: u32, group: &mut Group) -> usize
    requires size { nodesize ≤ 65536 }
    requires small { IsSmallGroup group.old }
    requires nodes { AreNodes nodes.now }
    requires few { group.old.used ≤ 2 ^ 42 }
    requires before { LieBefore (λ n. n.address) (4096 * group.old.chunk.start) nodes.now first }
    ensures chunk { group.new.chunk ≡ group.old.chunk }
    ensures used { group.new.used ≡ group.old.used + bytes_of_nodes nodes.now nodesize group.old.chunk }
    ensures before { LieBefore (λ n. n.address) (4096 * (group.old.chunk.start + group.old.chunk.length)) nodes.now result }
{
    let mut next = first;
    while next < nodes.len() && nodes.get(next).address < group.end() {
        if nodes.get(next).address >= 4096 * group.chunk.start {
            group.used += nodesize as u64;
        }
        next += 1;
    }
    next
}
