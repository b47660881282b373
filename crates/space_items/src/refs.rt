ghost use Rattle.std.specs.Prelude.{◌≡◌, ◌≤◌, ◌<◌, ◌+◌, ◌*◌, ◌^◌, ◌++◌, ◌∷◌, [], length};
ghost use Rattle.std.specs.Option.{option_to_list};
ghost use Rattle.btr_space_items.specs.ExtentBody.{extent_body_of, extent_body_size};
ghost use Rattle.btr_space_items.specs.InlineRef.{inline_ref_size};
ghost use Rattle.space_items.specs.Extents.{data_ref, extent_body, image_refs, is_behind, node_item, owner_refs, piece_item, place_of_ref, put_ref};
ghost use Rattle.space_items.specs.Stream.{IsSmallPiece};

use crate::node::TreeNode;
use btr_space_items::btrfs_format::flag::{EXTENT_FLAG_DATA, EXTENT_FLAG_TREE_BLOCK};
use btr_space_items::btrfs_format::size::{EXTENT_ITEM_SIZE, INLINE_DATA_REF_SIZE};
use btr_space_items::{InlineRef, extent_body_size, write_extent_body};
use btr_tree::data_ref_hash;
use std::marker::Model;
use unit_plan::Piece;

/// The most bytes that an item of the extent tree has: an extent of two references to data.
pub const LONGEST: usize = EXTENT_ITEM_SIZE + 2 * INLINE_DATA_REF_SIZE;

/// The body of an item of the extent tree, seen as its bytes.
#[derive(Drop)]
pub struct ExtentItemBody {
    bytes: [u8; LONGEST],
    length: usize,
}

impl Model for ExtentItemBody {
    ghost use Rattle.std.specs.Prelude.{◌≤◌, ℕ, List, take};

    ghost Value = { List ℕ };

    ghost view = { λ b. take b.length b.bytes };

    ghost invariant = { λ b. b.length ≤ 82 };
}

impl ExtentItemBody {
    /// No bytes.
    pub fn empty() -> ExtentItemBody
        ensures { result ≡ [] }
    {
        ExtentItemBody {
            bytes: [0; LONGEST],
            length: 0,
        }
    }

    /// These bytes, of which there are at most 82.
    pub fn of(bytes: &[u8]) -> ExtentItemBody
        requires { length bytes.now ≤ 82 }
        ensures { result ≡ bytes.now }
    {
        let mut room = [0; LONGEST];
        room[..bytes.len()].copy_from_slice(bytes);
        ExtentItemBody {
            bytes: room,
            length: bytes.len(),
        }
    }

    /// The body of an extent with these references: the transaction that made it, and what it holds.
    fn of_refs(generation: u64, flags: u64, refs: &[InlineRef]) -> ExtentItemBody
        requires few { length refs.now ≤ 2 }
        requires room { extent_body_size refs.now ≤ 82 }
        ensures { result ≡ extent_body_of generation flags refs.now }
    {
        let length = extent_body_size(refs);
        let mut bytes = [0; LONGEST];
        write_extent_body(generation, flags, refs, &mut bytes[..length]);
        ExtentItemBody { bytes, length }
    }

    /// The bytes.
    pub fn bytes(&self) -> &[u8]
        ensures { result.now ≡ self.now }
    {
        &self.bytes[..self.length]
    }
}

/// The body of a node's extent.
pub fn node_body(node: TreeNode) -> ExtentItemBody
    ensures { result ≡ (node_item node).1 }
{
    ExtentItemBody::of_refs(
        1,
        EXTENT_FLAG_TREE_BLOCK,
        &[InlineRef::TreeBlock { root: node.owner }],
    )
}

/// The body of a piece's extent. References stand by descending hash, and of equal ones that of tree 5 stands first.
pub fn piece_body(piece: &Piece) -> ExtentItemBody
    requires { IsSmallPiece piece.now }
    ensures { result ≡ (piece_item piece.now).1 }
{
    match (owner_ref(piece), image_ref(piece)) {
        (None, None) => ExtentItemBody::of_refs(1, EXTENT_FLAG_DATA, &[]),
        (Some(one), None) | (None, Some(one)) => ExtentItemBody::of_refs(
            1,
            EXTENT_FLAG_DATA,
            &[one],
        ),
        (Some(owner), Some(image)) => two_refs(owner, image),
    }
}

/// The reference of the file that a piece belongs to.
fn owner_ref(piece: &Piece) -> Option<InlineRef>
    requires { IsSmallPiece piece.now }
    ensures { option_to_list result ≡ owner_refs piece.now.owner }
{
    let (inode, block) = piece.owner?;
    Some(data_ref(5, inode, block))
}

/// The reference of the image, where a piece holds blocks of it.
fn image_ref(piece: &Piece) -> Option<InlineRef>
    requires { IsSmallPiece piece.now }
    ensures { option_to_list result ≡ image_refs piece.now.from }
{
    let block = piece.from?;
    Some(data_ref(256, 257, block))
}

/// The body of an extent of data with two references, in their order. Of equal ones the first one stands first.
fn two_refs(first: InlineRef, other: InlineRef) -> ExtentItemBody
    requires { inline_ref_size first + inline_ref_size other ≤ 2 * INLINE_DATA_REF_SIZE }
    ensures { result ≡ extent_body EXTENT_FLAG_DATA (put_ref first (other ∷ [])) }
{
    if is_behind(first, other) {
        ExtentItemBody::of_refs(1, EXTENT_FLAG_DATA, &[other, first])
    } else {
        ExtentItemBody::of_refs(1, EXTENT_FLAG_DATA, &[first, other])
    }
}

/// The reference of a file extent that begins at a block of an inode.
fn data_ref(tree: u64, inode: u64, block: u64) -> InlineRef
    requires { block < 2 ^ 50 }
    ensures { result ≡ data_ref tree inode block }
{
    InlineRef::DataRef {
        root: tree,
        objectid: inode,
        offset: 4096 * block,
        count: 1,
    }
}

/// Whether a reference belongs behind another in the item of an extent.
fn is_behind(reference: InlineRef, other: InlineRef) -> bool
    ensures { result ≡ is_behind reference other }
{
    other.kind() < reference.kind()
        || (reference.kind() == other.kind() && place_of(reference) < place_of(other))
}

/// By what references of one kind descend.
fn place_of(reference: InlineRef) -> u64
    ensures { result ≡ place_of_ref reference }
{
    match reference {
        InlineRef::TreeBlock { root } => root,
        InlineRef::SharedBlock { parent } | InlineRef::SharedData { parent, .. } => parent,
        InlineRef::DataRef {
            root,
            objectid,
            offset,
            ..
        } => data_ref_hash(root, objectid, offset),
    }
}
