// What Linux asks of the bytes of a node, beside what every reader of trees does.
ghost use Rattle.std.specs.Prelude.{◌≡◌, ◌≤◌, ◌*◌, length};
ghost use Rattle.std.specs.Bool.{Decides};
ghost use Rattle.btr_node.specs.Head.{nritems};
ghost use Rattle.btr_node.specs.Leaf.{HasLeafLayout, item_layout};
ghost use Rattle.btr_node.specs.Records.{records_in};
ghost use Rattle.btr_check_rules.specs.btr_reader.outside.History.{Image};
ghost use Rattle.btr_check_rules.specs.Nodes.{KeepsNode, is_relocated, node_bytes};
ghost use Rattle.btr_check_rules.specs.Recount.{Recount};
ghost use Rattle.btr_check_fields.specs.Nodes.{ends_at, is_packed, is_packed_leaf, is_written, keeps_bytes};

use btr_check_rules::btr_reader::btr_reader_walk::NodePointer;
use btr_check_rules::btr_reader::btr_space_items::btrfs_format::flag::MIXED_BACKREF_REV;
use btr_check_rules::btr_reader::btr_space_items::btrfs_format::size::{HEADER_SIZE, ITEM_SIZE};
use btr_check_rules::btr_reader::btr_super::Super;
use btr_node::{BtrItemHead, Head};

/// Whether a node's head says that it was written, with references of today's form. One that a balance made has a flag
/// more.
fn is_written(head: &Head) -> bool
    ensures { result ≡ is_written head.now }
{
    let plain = [1, 0, 0, 0, 0, 0, 0];
    let moved = [3, 0, 0, 0, 0, 0, 0];
    (head.flags == plain || head.flags == moved) && head.revision == MIXED_BACKREF_REV
}

/// Whether an item's data ends at this place.
fn ends_at(head: &BtrItemHead, end: usize) -> bool
    ensures { result ≡ ends_at end head.now }
{
    head.offset as usize + head.size as usize == end
}

/// Whether the data of `count` items is packed: that of the first ends where the bytes do, and that of each other one where the
/// one before begins. `entries` is what stands behind the node's head.
fn is_packed(entries: &[u8], count: usize) -> bool
    requires { ITEM_SIZE * count ≤ length entries.now }
    ensures { result ≡ is_packed (length entries.now) (records_in ITEM_SIZE item_layout count entries.now) }
{
    let mut end = entries.len();
    for i in 0..count {
        let head = BtrItemHead::at(entries, BtrItemHead::SIZE * i);
        if !ends_at(&head, end) {
            return false;
        }
        end = head.offset as usize;
    }
    true
}

/// Whether a node was written, is not newer than the superblock, and its data is packed.
fn passes(sup: &Super, p: &NodePointer, bytes: &[u8]) -> bool
    requires head { HEADER_SIZE ≤ length bytes.now }
    requires layout { p.now.level ≡ 0 → HasLeafLayout bytes.now }
    ensures { result ≡ keeps_bytes sup.now p.now bytes.now }
{
    let head = Head::of(bytes);
    is_written(&head)
        && p.generation <= sup.generation
        && is_packed_leaf(p.level, bytes, head.count as usize)
}

/// Whether Linux takes a node that every reader takes.
pub fn keeps_node(sup: &Super, p: &NodePointer, bytes: &[u8]) -> bool
    requires head { HEADER_SIZE ≤ length bytes.now }
    requires layout { p.now.level ≡ 0 → HasLeafLayout bytes.now }
    ensures { (image : Image) (r : Recount) → r.super ≡ sup.now → node_bytes image r p.now.address ≡ bytes.now → Decides result (KeepsNode image r p.now) }
{
    passes(sup, p, bytes)
}

/// Whether a node is no leaf, or its data is packed.
fn is_packed_leaf(level: u8, bytes: &[u8], count: usize) -> bool
    requires head { HEADER_SIZE ≤ length bytes.now }
    requires count { count ≡ nritems bytes.now }
    requires layout { level ≡ 0 → HasLeafLayout bytes.now }
    ensures { result ≡ is_packed_leaf level bytes.now }
{
    if level != 0 {
        return true;
    }
    is_packed(&bytes[HEADER_SIZE..], count)
}

/// Whether a balance made a node.
pub fn is_relocated(head: &Head) -> bool
    ensures { result ≡ is_relocated head.now }
{
    head.flags.iter().any(|b| *b == 3)
}
