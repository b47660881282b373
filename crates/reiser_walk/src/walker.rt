ghost use Rattle.std.specs.Prelude.{◌≡◌, ◌≤◌, ◌<◌, ◌+◌, ◌^◌, length, vec_capacity};

use crate::hand::{LeafInHand, Step};
use crate::reiser_tree::ReiserTree;
use reiser_bitmap::Bitmap;
use reiser_items::ItemHead;

/// A walk over the items of the tree of a volume.
///
/// A contract sees where it stands by `Walks`: which items it has given, and that what it still has to give are the
/// further items of the tree.
#[derive(Drop)]
pub struct Walker {
    pub(crate) tree: ReiserTree,
    pub(crate) reached: Bitmap,
    pub(crate) at_start: bool,
    pub(crate) path: Vec<Step>,
    pub(crate) leaf: LeafInHand,
    pub(crate) last: Option<ItemHead>,
    pub(crate) spent: bool,
    ghost low: { 2 ≤ tree.height },
    ghost high: { tree.height ≤ 7 },
    ghost depth: { length path.items + 2 ≤ tree.height },
    ghost room: { 5 ≤ vec_capacity path },
}
