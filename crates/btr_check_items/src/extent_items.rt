// The items of the extent tree.
ghost use Rattle.std.specs.Prelude.{◌≡◌, ◌≤◌, [], drop, length};
ghost use Rattle.std.specs.Option.{option_map};
ghost use Rattle.btr_check_rules.specs.Extents.{extent_by, extent_of, is_extent_item, is_full, is_node, is_node_head, plain_extent};
ghost use Rattle.btr_check_items.specs.Extents.{extent_value, kind_of_item};

use crate::reference::is_ref_item;
use btr_check_rules::btr_reader::btr_reader_walk::Key;
use btr_check_rules::btr_reader::btr_reader_walk::btr_keys::btrfs_format::flag::{
    BLOCK_FLAG_FULL_BACKREF, EXTENT_FLAG_TREE_BLOCK,
};
use btr_check_rules::btr_reader::btr_reader_walk::btr_keys::btrfs_format::key::{
    BLOCK_GROUP_ITEM, EXTENT_ITEM, METADATA_ITEM,
};
use btr_check_rules::btr_reader::btr_reader_walk::btr_keys::btrfs_format::size::{
    EXTENT_ITEM_SIZE, KEY_SIZE,
};
use btr_check_rules::btr_reader::btr_space_items::{ExtentHead, InlineRefs};

/// What an item of the extent tree is.
#[derive(Clone, Copy, Debug, PartialEq, Eq)]
pub enum ExtentTreeKind {
    Extent,
    Reference,
    Group,
    Other,
}

/// Whether an item is an extent.
fn is_extent_item(key: &Key) -> bool
    ensures { result ≡ is_extent_item (key.now, []) }
{
    key.kind == EXTENT_ITEM || key.kind == METADATA_ITEM
}

/// What the item with this key is.
pub fn kind_of_item(key: &Key) -> ExtentTreeKind
    ensures { result ≡ kind_of_item key.now }
{
    if is_extent_item(key) {
        ExtentTreeKind::Extent
    } else if is_ref_item(key) {
        ExtentTreeKind::Reference
    } else if key.kind == BLOCK_GROUP_ITEM {
        ExtentTreeKind::Group
    } else {
        ExtentTreeKind::Other
    }
}

/// An extent, as its item tells it.
#[derive(Debug, Drop)]
pub struct ExtentTold<'a> {
    /// Its address, in bytes.
    pub start: u64,
    /// In bytes.
    pub length: u64,
    pub head: ExtentHead,
    /// Of a node its level.
    pub level: Option<u64>,
    /// The references in its item.
    pub refs: InlineRefs<'a>,
}

impl ExtentTold<'_> {
    /// Whether it is a node.
    pub fn is_node(&self) -> bool
        ensures { result ≡ is_node (extent_value self.now) }
    {
        is_node_head(&self.head)
    }

    /// Whether what the node refers to names the node itself, and not its tree.
    pub fn is_full(&self) -> bool
        ensures { result ≡ is_full (extent_value self.now) }
    {
        self.head.flags & BLOCK_FLAG_FULL_BACKREF != 0
    }
}

fn is_node_head(head: &ExtentHead) -> bool
    ensures { result ≡ is_node_head head.now }
{
    head.flags & EXTENT_FLAG_TREE_BLOCK != 0
}

/// The bytes behind the first `n`.
fn behind(bytes: &[u8], n: usize) -> &[u8]
    requires { n ≤ length bytes.now }
    ensures { result.now ≡ drop n bytes.now }
{
    &bytes[n..]
}

/// An extent with the references that these bytes are, if they are on their grammar.
fn with_refs<'a>(
    start: u64,
    length: u64,
    level: Option<u64>,
    refs: &'a [u8],
    head: ExtentHead,
) -> Option<ExtentTold<'a>>
    ensures { option_map extent_value result ≡ extent_by start length level refs.now head }
{
    match InlineRefs::read(refs) {
        Some(refs) => Some(ExtentTold {
            start,
            length,
            head,
            level,
            refs,
        }),
        None => None,
    }
}

/// The extent of an item of kind 168. That of a node has a key and a level between its head and its references.
fn plain_extent<'a>(key: &Key, body: &'a [u8], head: ExtentHead) -> Option<ExtentTold<'a>>
    requires { EXTENT_ITEM_SIZE ≤ length body.now }
    ensures { option_map extent_value result ≡ plain_extent (key.now, body.now) head }
{
    let level = EXTENT_ITEM_SIZE + KEY_SIZE;
    if !is_node_head(&head) {
        with_refs(
            key.objectid,
            key.offset,
            None,
            behind(body, EXTENT_ITEM_SIZE),
            head,
        )
    } else if body.len() < level + 1 {
        None
    } else {
        with_refs(
            key.objectid,
            key.offset,
            Some(body[level] as u64),
            behind(body, level + 1),
            head,
        )
    }
}

/// The extent that an item of kind 168 or 169 is; None where it is off its grammar.
pub fn extent_of<'a>(nodesize: u32, key: &Key, body: &'a [u8]) -> Option<ExtentTold<'a>>
    ensures { option_map extent_value result ≡ extent_of nodesize (key.now, body.now) }
{
    match ExtentHead::read(body) {
        Some(head) => {
            if key.kind == METADATA_ITEM {
                with_refs(
                    key.objectid,
                    nodesize as u64,
                    Some(key.offset),
                    behind(body, EXTENT_ITEM_SIZE),
                    head,
                )
            } else {
                plain_extent(key, body, head)
            }
        }
        None => None,
    }
}
