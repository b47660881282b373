ghost use Rattle.std.specs.Prelude.{◌≡◌, ◌≤◌, ◌+◌, ◌*◌, ◌++◌, ◌∷◌, [], List, length, drop};
ghost use Rattle.btr_keys.specs.Layout.{spelling};
ghost use Rattle.btr_node.specs.Draft.{contents, data_of, sealed};
ghost use Rattle.btr_node.specs.Head.{head_layout};
ghost use Rattle.btr_node.specs.Leaf.{Item};
ghost use Rattle.btr_node.specs.declared.child.Child.{Child as ChildOf};

use crate::child::Child;
use crate::head::Head;
use crate::item::BtrItemHead;
use btr_keys::Key;
use btr_keys::btrfs_format::size::{CSUM_SIZE, HEADER_SIZE, ITEM_SIZE, KEY_PTR_SIZE};
use csum_kinds::{SumKind, kind_sum};
use refusals::{Field, put_fields};

/// Puts an item behind the `count` items that a leaf has. `behind` is what stands behind the leaf's head, and the data
/// of the leaf begins at byte `low` of it.
pub fn put_item(behind: &mut [u8], count: usize, low: usize, key: Key, body: &[u8])
    requires heads { ITEM_SIZE * count + ITEM_SIZE + length body.now ≤ low }
    requires within { low ≤ length behind.old }
    requires small { length behind.old ≤ 65536 }
    ensures { (items : List Item) → length items ≡ count → low + length (data_of items) ≡ length behind.old
        → behind.old ≡ contents (length behind.old) items []
        → behind.new ≡ contents (length behind.old) (items ++ (key, body.now) ∷ []) [] }
{
    let begin = low - body.len();
    behind[begin..low].copy_from_slice(body);
    let at = BtrItemHead::SIZE * count;
    put_fields(
        &mut behind[at..at + BtrItemHead::SIZE],
        &[
            Field::Bytes(&key.to_bytes()),
            Field::U32(begin as u32),
            Field::U32(body.len() as u32),
        ],
    );
}

/// Puts a child behind the `count` children that an inner node has. `behind` is what stands behind the node's head.
pub fn put_child(behind: &mut [u8], count: usize, child: &Child)
    requires { KEY_PTR_SIZE * count + KEY_PTR_SIZE ≤ length behind.old }
    ensures { (children : List ChildOf) → length children ≡ count
        → behind.old ≡ contents (length behind.old) [] children
        → behind.new ≡ contents (length behind.old) [] (children ++ child.now ∷ []) }
{
    let at = Child::SIZE * count;
    put_fields(
        &mut behind[at..at + Child::SIZE],
        &[
            Field::Bytes(&child.key.to_bytes()),
            Field::U64(child.address),
            Field::U64(child.generation),
        ],
    );
}

/// Writes the head of a node, and its checksum before it.
pub fn put_head(bytes: &mut [u8], head: &Head, sums: SumKind)
    requires { HEADER_SIZE ≤ length bytes.old }
    ensures { bytes.new ≡ sealed sums (spelling head_layout head.now ++ drop HEADER_SIZE bytes.old) }
{
    head.write(&mut bytes[CSUM_SIZE..HEADER_SIZE]);
    let sum = kind_sum(sums, &bytes[CSUM_SIZE..]);
    bytes[..CSUM_SIZE].copy_from_slice(&sum);
}
