// The references that pointers to nodes and to data make.
ghost use Rattle.std.specs.Prelude.{◌≡◌, ◌+◌, ◌-◌, ◌%◌, ◌^◌, ℕ, Bool, List};
ghost use Rattle.btr_check_references.specs.Counts.{made_of};
ghost use Rattle.btr_check_rules.specs.btr_reader.btr_node.declared.child.Child.{Child};
ghost use Rattle.btr_check_rules.specs.References.{child_ref, root_ref, use_ref};
ghost use Rattle.btr_check_rules.specs.Recount.{Recount, TreeOn, use_of};

use btr_check_references::Made;
use btr_check_rules::btr_reader::btr_reader_walk::{DiskRange, Key};
use btr_check_rules::btr_reader::btr_space_items::InlineRef;

/// The reference to the root of a tree, by the tree with this number. The address is in bytes.
pub fn root_made(nodesize: u32, number: u64, address: u64) -> Made
    ensures { (r : Recount) (t : TreeOn) → r.super.nodesize ≡ nodesize → t.number ≡ number → t.root.address ≡ address → made_of result ≡ root_ref r t }
{
    Made {
        start: address,
        length: nodesize as u64,
        by: InlineRef::TreeBlock { root: number },
    }
}

/// The reference to the child at an address of the node at another one: by the owner of the node, or where it is full by the node.
pub fn child_made(nodesize: u32, full: bool, owner: u64, node: u64, child: u64) -> Made
    ensures { (c : Child) → c.address ≡ child → made_of result ≡ child_ref nodesize full owner node c }
{
    Made {
        start: child,
        length: nodesize as u64,
        by: if full {
            InlineRef::SharedBlock { parent: node }
        } else {
            InlineRef::TreeBlock { root: owner }
        },
    }
}

/// Where in a file a disk extent would begin of which the file has a part, in bytes, as references tell it.
pub fn place_told(place: u64, part: u64) -> u64
    ensures { result ≡ (place + (2 ^ 64 - part)) % 2 ^ 64 }
{
    place.wrapping_sub(part)
}

/// The reference to the disk extent of a file extent with this key: by the file of the leaf's owner, or where the leaf is full by
/// the leaf.
pub fn use_made(full: bool, owner: u64, leaf: u64, key: &Key, d: &DiskRange) -> Made
    ensures { (body : List ℕ) (compression : ℕ) (written : Bool) → made_of result ≡ use_ref full leaf (use_of owner (key.now, body) compression written d.now) }
{
    Made {
        start: d.disk_bytenr,
        length: d.disk_num_bytes,
        by: if full {
            InlineRef::SharedData {
                parent: leaf,
                count: 1,
            }
        } else {
            InlineRef::DataRef {
                root: owner,
                objectid: key.objectid,
                offset: place_told(key.offset, d.offset),
                count: 1,
            }
        },
    }
}
