// References to extents, and the items that have one alone.
ghost use Rattle.std.specs.Prelude.{◌≡◌, [], length};
ghost use Rattle.btr_check_rules.specs.Extents.{file_ref, is_ref_item, own_file_ref, ref_of_item, ref_place, refers_to_node, stands_under};
ghost use Rattle.btr_check_items.specs.Refs.{bare_ref, own_leaf_ref};

use btr_check_rules::btr_reader::btr_reader_walk::Key;
use btr_check_rules::btr_reader::btr_reader_walk::btr_keys::btrfs_format::key::{
    EXTENT_DATA_REF, SHARED_BLOCK_REF, SHARED_DATA_REF, TREE_BLOCK_REF,
};
use btr_check_rules::btr_reader::btr_reader_walk::btr_keys::btrfs_format::size::INLINE_DATA_REF_SIZE;
use btr_check_rules::btr_reader::btr_reader_walk::btr_keys::{u32_at, u64_at};
use btr_check_rules::btr_reader::btr_space_items::InlineRef;
use castagnoli::data_ref_hash;

/// How many places a hash of a reference may be off: so many others may have the same.
const HASHES_TRIED: u64 = 64;

/// Whether a reference is to a node, and not to data.
pub fn refers_to_node(reference: &InlineRef) -> bool
    ensures { result ≡ refers_to_node reference.now }
{
    reference.kind() == TREE_BLOCK_REF || reference.kind() == SHARED_BLOCK_REF
}

/// By what references of one kind descend in an item: the number of a tree, an address, or a hash.
pub fn ref_place(reference: &InlineRef) -> u64
    ensures { result ≡ ref_place reference.now }
{
    match *reference {
        InlineRef::TreeBlock { root } => root,
        InlineRef::SharedBlock { parent } => parent,
        InlineRef::DataRef {
            root,
            objectid,
            offset,
            ..
        } => data_ref_hash(root, objectid, offset),
        InlineRef::SharedData { parent, .. } => parent,
    }
}

/// Whether an item is a reference to an extent.
pub fn is_ref_item(key: &Key) -> bool
    ensures { result ≡ is_ref_item (key.now, []) }
{
    key.kind == TREE_BLOCK_REF
        || key.kind == EXTENT_DATA_REF
        || key.kind == SHARED_BLOCK_REF
        || key.kind == SHARED_DATA_REF
}

/// The reference by a file that a body of 28 bytes is.
fn file_ref(body: &[u8]) -> InlineRef
    requires { length body.now ≡ 28 }
    ensures { result ≡ file_ref body.now }
{
    InlineRef::DataRef {
        root: u64_at(body, 0),
        objectid: u64_at(body, 8),
        offset: u64_at(body, 16),
        count: u32_at(body, 24),
    }
}

/// Whether an offset is a hash, or little behind it.
fn stands_under(offset: u64, hash: u64) -> bool
    ensures { result ≡ stands_under offset hash }
{
    hash <= offset && (offset as u128) < hash as u128 + HASHES_TRIED as u128
}

/// The reference by a file that is an item of its own, under its hash.
fn own_file_ref(key: &Key, body: &[u8]) -> Option<InlineRef>
    ensures { result ≡ own_file_ref (key.now, body.now) }
{
    if body.len() != INLINE_DATA_REF_SIZE - 1 {
        return None;
    }
    let found = file_ref(body);
    if stands_under(key.offset, ref_place(&found)) {
        Some(found)
    } else {
        None
    }
}

/// The reference by a leaf that is an item of its own, with its count.
fn own_leaf_ref(address: u64, body: &[u8]) -> Option<InlineRef>
    ensures { result ≡ own_leaf_ref address body.now }
{
    if body.len() != 4 {
        return None;
    }
    Some(InlineRef::SharedData {
        parent: address,
        count: u32_at(body, 0),
    })
}

/// A reference without more than its key.
fn bare_ref(reference: InlineRef, body: &[u8]) -> Option<InlineRef>
    ensures { result ≡ bare_ref reference body.now }
{
    if body.is_empty() {
        Some(reference)
    } else {
        None
    }
}

/// The reference that an item of its own is; None where it is off its grammar.
pub fn ref_of_item(key: &Key, body: &[u8]) -> Option<InlineRef>
    ensures { result ≡ ref_of_item (key.now, body.now) }
{
    if key.kind == EXTENT_DATA_REF {
        own_file_ref(key, body)
    } else if key.kind == SHARED_DATA_REF {
        own_leaf_ref(key.offset, body)
    } else if key.kind == TREE_BLOCK_REF {
        bare_ref(InlineRef::TreeBlock { root: key.offset }, body)
    } else {
        bare_ref(InlineRef::SharedBlock { parent: key.offset }, body)
    }
}
