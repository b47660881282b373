ghost use Rattle.std.specs.Prelude.{◌≡◌, ◌<◌, ◌≤◌, ◌↔◌, List, ℕ, length, Some, IsSome, IsTrue, slice_get};
ghost use Rattle.std.specs.Option.{option_map, option_copied};
ghost use Rattle.btr_keys.specs.Repeated.{starts};
ghost use Rattle.btr_space_items.specs.InlineRef.{
  behind_inline,
  rest_of,
  inline_ref_front,
  inline_ref_bytes,
  inline_ref_size,
  inline_refs_of,
  ref_kind,
  ref_uses,
};

use btr_keys::btrfs_format::key::{
    EXTENT_DATA_REF, SHARED_BLOCK_REF, SHARED_DATA_REF, TREE_BLOCK_REF,
};
use btr_keys::btrfs_format::size::{INLINE_BLOCK_REF_SIZE, INLINE_DATA_REF_SIZE};
use btr_keys::{Field, put_fields, u32_at, u64_at};
use std::marker::Model;

/// An inline reference to data by a leaf: a kind, the leaf's address, and `struct btrfs_shared_data_ref`.
pub const INLINE_SHARED_DATA_REF_SIZE: usize = INLINE_BLOCK_REF_SIZE + 4;

/// A reference to an extent that stands in the extent's item, as the Btrfs on-disk format documentation has it.
#[derive(Clone, Copy, Debug, PartialEq, Eq)]
pub enum InlineRef {
    /// A node of a tree: kind 176, 9 bytes.
    TreeBlock {
        /// The tree's number.
        root: u64,
    },
    /// A node, by the node that is its parent: kind 182, 9 bytes.
    SharedBlock {
        /// The parent's logical address, in bytes.
        parent: u64,
    },
    /// Data of a file: kind 178, 29 bytes.
    DataRef {
        /// The number of the file's tree.
        root: u64,
        /// The file's inode.
        objectid: u64,
        /// Where in the file the extent's begin would lie, in bytes.
        offset: u64,
        /// How many file extents refer to it so.
        count: u32,
    },
    /// Data, by the leaf that has the file extents: kind 184, 13 bytes.
    SharedData {
        /// The leaf's logical address, in bytes.
        parent: u64,
        /// How many file extents of the leaf refer to it.
        count: u32,
    },
}

impl InlineRef {
    /// The byte that it begins with, which is the kind of an item that has it alone.
    pub fn kind(&self) -> u8
        ensures { result ≡ ref_kind self.now }
    {
        match self {
            InlineRef::TreeBlock { .. } => TREE_BLOCK_REF,
            InlineRef::SharedBlock { .. } => SHARED_BLOCK_REF,
            InlineRef::DataRef { .. } => EXTENT_DATA_REF,
            InlineRef::SharedData { .. } => SHARED_DATA_REF,
        }
    }

    /// How many bytes the reference takes.
    pub fn size(&self) -> usize
        ensures { result ≡ inline_ref_size self.now }
    {
        match self {
            InlineRef::TreeBlock { .. } | InlineRef::SharedBlock { .. } => INLINE_BLOCK_REF_SIZE,
            InlineRef::DataRef { .. } => INLINE_DATA_REF_SIZE,
            InlineRef::SharedData { .. } => INLINE_SHARED_DATA_REF_SIZE,
        }
    }

    /// How many uses of the extent it stands for.
    pub fn uses(&self) -> u32
        ensures { result ≡ ref_uses self.now }
    {
        match *self {
            InlineRef::TreeBlock { .. } | InlineRef::SharedBlock { .. } => 1,
            InlineRef::DataRef { count, .. } | InlineRef::SharedData { count, .. } => count,
        }
    }

    /// Writes the reference into a slice of its size.
    #[tactic(auto, unfolding(crate::specs::InlineRef::tree_block_layout, crate::specs::InlineRef::shared_block_layout, crate::specs::InlineRef::data_ref_layout, crate::specs::InlineRef::shared_data_layout))]
    pub fn write(&self, into: &mut [u8])
        requires { length into.old ≡ inline_ref_size self.now }
        ensures { into.new ≡ inline_ref_bytes self.now }
    {
        match *self {
            InlineRef::TreeBlock { root } => {
                put_fields(into, &[Field::U8(TREE_BLOCK_REF), Field::U64(root)]);
            }
            InlineRef::SharedBlock { parent } => {
                put_fields(into, &[Field::U8(SHARED_BLOCK_REF), Field::U64(parent)]);
            }
            InlineRef::DataRef {
                root,
                objectid,
                offset,
                count,
            } => put_fields(
                into,
                &[
                    Field::U8(EXTENT_DATA_REF),
                    Field::U64(root),
                    Field::U64(objectid),
                    Field::U64(offset),
                    Field::U32(count),
                ],
            ),
            InlineRef::SharedData { parent, count } => put_fields(
                into,
                &[
                    Field::U8(SHARED_DATA_REF),
                    Field::U64(parent),
                    Field::U32(count),
                ],
            ),
        }
    }

    #[tactic(auto, unfolding(crate::specs::InlineRef::tree_block_layout, crate::specs::InlineRef::shared_block_layout, crate::specs::InlineRef::data_ref_layout, crate::specs::InlineRef::shared_data_layout, crate::specs::InlineRef::behind_inline))]
    fn front(bytes: &[u8]) -> InlineRef
        requires { IsSome (behind_inline bytes.now) }
        ensures { result ≡ inline_ref_front bytes.now }
    {
        if bytes[0] == TREE_BLOCK_REF {
            InlineRef::TreeBlock {
                root: u64_at(bytes, 1),
            }
        } else if bytes[0] == SHARED_BLOCK_REF {
            InlineRef::SharedBlock {
                parent: u64_at(bytes, 1),
            }
        } else if bytes[0] == SHARED_DATA_REF {
            InlineRef::SharedData {
                parent: u64_at(bytes, 1),
                count: u32_at(bytes, 9),
            }
        } else {
            InlineRef::DataRef {
                root: u64_at(bytes, 1),
                objectid: u64_at(bytes, 9),
                offset: u64_at(bytes, 17),
                count: u32_at(bytes, 25),
            }
        }
    }
}

/// The bytes behind the reference that a slice begins with; None where it is not whole or of another kind.
#[tactic(auto, unfolding(crate::specs::InlineRef::behind_inline))]
fn behind(bytes: &[u8]) -> Option<&[u8]>
    ensures { option_copied result ≡ behind_inline bytes.now }
{
    match bytes {
        [TREE_BLOCK_REF, ..] => rest_of(INLINE_BLOCK_REF_SIZE, bytes),
        [SHARED_BLOCK_REF, ..] => rest_of(INLINE_BLOCK_REF_SIZE, bytes),
        [EXTENT_DATA_REF, ..] => rest_of(INLINE_DATA_REF_SIZE, bytes),
        [SHARED_DATA_REF, ..] => rest_of(INLINE_SHARED_DATA_REF_SIZE, bytes),
        _ => None,
    }
}

fn rest_of(n: usize, bytes: &[u8]) -> Option<&[u8]>
    ensures { option_copied result ≡ rest_of n bytes.now }
{
    if bytes.len() < n {
        None
    } else {
        Some(&bytes[n..])
    }
}

/// How many references a slice is; None where one is not whole or of another kind.
fn ref_count(body: &[u8]) -> Option<usize>
    ensures { result ≡ option_map length (starts behind_inline body.now) }
{
    let mut rest = body;
    let mut count = 0;
    while !rest.is_empty() {
        rest = behind(rest)?;
        count += 1;
    }
    Some(count)
}

/// The bytes from the begin of reference `i` on.
fn ref_start(body: &[u8], i: usize) -> &[u8]
    ensures whole { (all : List (List ℕ)) → starts behind_inline body.now ≡ Some all → i < length all → IsSome (behind_inline result.now) }
    ensures there { (all : List (List ℕ)) → starts behind_inline body.now ≡ Some all → i < length all → slice_get all i ≡ Some result.now }
{
    let mut rest = body;
    for _ in 0..i {
        let Some(after) = behind(rest) else {
            return rest;
        };
        rest = after;
    }
    rest
}

/// The references of an extent: what stands behind the first 24 bytes of an extent or metadata item.
#[derive(Debug, Drop)]
pub struct InlineRefs<'a> {
    body: &'a [u8],
    count: usize,
}

impl<'a> Model for InlineRefs<'a> {
    ghost use Rattle.std.specs.Prelude.{◌≡◌, List, Some, length, unwrap_or, []};
    ghost use Rattle.btr_space_items.specs.declared.inline_ref.InlineRef.{InlineRef};
    ghost use Rattle.btr_space_items.specs.InlineRef.{inline_refs_of};

    ghost Value = { List InlineRef };

    ghost view = { λ v. unwrap_or (inline_refs_of v.body.now) [] };

    ghost invariant = { λ v. (inline_refs_of v.body.now ≡ Some (unwrap_or (inline_refs_of v.body.now) [])) × (v.count ≡ length (unwrap_or (inline_refs_of v.body.now) [])) };
}

impl<'a> InlineRefs<'a> {
    /// The references that a slice is; None exactly where it is not any number of whole references of the four kinds.
    pub fn read(body: &'a [u8]) -> Option<InlineRefs<'a>>
        ensures { result ≡ inline_refs_of body.now }
    {
        let count = ref_count(body)?;
        Some(InlineRefs { body, count })
    }

    /// How many references there are.
    pub fn len(&self) -> usize
        ensures { result ≡ length self.now }
    {
        self.count
    }

    /// Whether there is none.
    pub fn is_empty(&self) -> bool
        ensures { IsTrue result ↔ (length self.now ≡ 0) }
    {
        self.count == 0
    }

    /// Reference `i`, in the order of the item. It goes over the references before it.
    pub fn get(&self, i: usize) -> InlineRef
        requires { i < length self.now }
        ensures { slice_get self.now i ≡ Some result }
    {
        InlineRef::front(ref_start(self.body, i))
    }
}
