ghost use Rattle.std.specs.Prelude.{◌≡◌, ◌≤◌, ◌+◌, ◌-◌, ◌*◌, ◌++◌, ◌∷◌, [], List, length, drop, replicate, IfOk};
ghost use Rattle.btr_keys.specs.Layout.{spelling};
ghost use Rattle.btr_node.specs.Draft.{contents, data_of, sealed};
ghost use Rattle.btr_node.specs.Head.{head_layout, behind_head};
ghost use Rattle.btr_node.specs.Leaf.{Item};
ghost use Rattle.btr_node.specs.declared.child.Child.{Child as ChildOf};

use crate::child::Child;
use crate::head::Head;
use crate::put::{put_child, put_head, put_item};
use btr_keys::Key;
use btr_keys::btrfs_format::size::{HEADER_SIZE, ITEM_SIZE, KEY_PTR_SIZE};
use csum_kinds::SumKind;
use refusals::Memory;
use std::alloc::Global;

/// A buffer of so many zeros.
pub fn zeroed(alloc: Global, n: usize) -> Result<Vec<u8>, Memory>
    ensures { IfOk result (λ bytes. bytes.items ≡ replicate n 0) }
{
    let mut bytes = Vec::new(alloc);
    bytes.resize(n, 0)?;
    Ok(bytes)
}

/// Writes zeros over a buffer.
pub fn clear(buffer: &mut Vec<u8>)
    ensures { buffer.new.items ≡ replicate (length buffer.old.items) 0 }
{
    buffer.as_mut_slice().fill(0);
}

/// Puts an item behind the `count` items of the leaf in a buffer. The data of the leaf begins at byte `low` behind the
/// leaf's head.
pub fn add_item(buffer: &mut Vec<u8>, count: usize, low: usize, key: Key, body: &[u8])
    requires heads { ITEM_SIZE * count + ITEM_SIZE + length body.now ≤ low }
    requires placed { HEADER_SIZE + low ≤ length buffer.old.items }
    requires small { length buffer.old.items ≤ 65536 }
    ensures size { length buffer.new.items ≡ length buffer.old.items }
    ensures item { (items : List Item) → length items ≡ count → HEADER_SIZE + low + length (data_of items) ≡ length buffer.old.items
        → behind_head buffer.old.items ≡ contents (length buffer.old.items - HEADER_SIZE) items []
        → behind_head buffer.new.items ≡ contents (length buffer.old.items - HEADER_SIZE) (items ++ (key, body.now) ∷ []) [] }
{
    let bytes = buffer.as_mut_slice();
    put_item(&mut bytes[HEADER_SIZE..], count, low, key, body);
}

/// Puts a child behind the `count` children of the inner node in a buffer.
pub fn add_child(buffer: &mut Vec<u8>, count: usize, child: &Child)
    requires { HEADER_SIZE + KEY_PTR_SIZE * count + KEY_PTR_SIZE ≤ length buffer.old.items }
    ensures size { length buffer.new.items ≡ length buffer.old.items }
    ensures link { (children : List ChildOf) → length children ≡ count
        → behind_head buffer.old.items ≡ contents (length buffer.old.items - HEADER_SIZE) [] children
        → behind_head buffer.new.items ≡ contents (length buffer.old.items - HEADER_SIZE) [] (children ++ child.now ∷ []) }
{
    let bytes = buffer.as_mut_slice();
    put_child(&mut bytes[HEADER_SIZE..], count, child);
}

/// Writes the head of the node in a buffer, and its checksum before it.
pub fn seal(buffer: &mut Vec<u8>, head: &Head, sums: SumKind)
    requires { HEADER_SIZE ≤ length buffer.old.items }
    ensures { buffer.new.items ≡ sealed sums (spelling head_layout head.now ++ drop HEADER_SIZE buffer.old.items) }
{
    put_head(buffer.as_mut_slice(), head, sums);
}
