ghost use Rattle.std.specs.Prelude.{◌≡◌, ◌<◌, ◌≤◌, ◌+◌, ◌++◌, ℕ, suc, [], length, vec_capacity, IfSome, IfNone, OnSome};
ghost use Rattle.reiser_bitmap.specs.outside.History.{Image};
ghost use Rattle.reiser_items.specs.reiser_node.Inner.{child_block_at};
ghost use Rattle.reiser_walk.specs.Hand.{path_rest};
ghost use Rattle.reiser_walk.specs.Tree.{node_events};

use crate::block_pointer::BlockPointer;
use crate::hand::{NodeCursor, Step};
use reiser_items::InnerView;

/// Takes the next child off a path of inner nodes, the lowest last.
pub fn next_child(path: &mut Vec<Step>) -> Option<BlockPointer>
    ensures child { IfSome result (λ p. (image : Image) (n l : ℕ) →
        path_rest image n (length path.new.items + l) path.old.items
        ≡ node_events image n l p.holder p.block ++ path_rest image n (length path.new.items + l) path.new.items) }
    ensures none { IfNone result ((image : Image) (n top : ℕ) → path_rest image n top path.old.items ≡ []) }
    ensures some { OnSome result (0 < length path.old.items) }
    ensures emptied { IfNone result (path.new.items ≡ []) }
    ensures shorter { length path.new.items ≤ length path.old.items }
    ensures room { vec_capacity path.new ≡ vec_capacity path.old }
{
    while !path.is_empty() {
        let last = path.len() - 1;
        if path[last].at.left > 0 {
            return Some(take_child(&mut path[last]));
        }
        path.truncate(last);
    }
    None
}

/// Takes the next child off an inner node.
fn take_child(step: &mut Step) -> BlockPointer
    requires { 0 < step.old.at.left }
    ensures holder { result.holder ≡ step.old.no }
    ensures block { result.block ≡ child_block_at step.old.block.bytes step.old.at.next }
    ensures node { step.new.no ≡ step.old.no }
    ensures bytes { step.new.block ≡ step.old.block }
    ensures next { step.new.at.next ≡ step.old.at.next + 1 }
    ensures left { step.old.at.left ≡ suc step.new.at.left }
{
    let pointer = BlockPointer {
        block: InnerView::of(&step.block).child(step.at.next),
        holder: step.no,
    };
    step.at = NodeCursor {
        next: step.at.next + 1,
        left: step.at.left - 1,
    };
    pointer
}
