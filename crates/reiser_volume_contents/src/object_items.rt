use crate::leaf::LeafInHand;
use reiser_volume_objects::ObjectKey;

/// Reads the items of one object again, leaf after leaf.
///
/// A contract sees where it stands by `Reads`: which items it has given, and that those which it has still to give are the
/// others of the object. It keeps one leaf.
#[derive(Drop)]
pub struct ObjectItems {
    pub(crate) key: ObjectKey,
    /// The number of the next leaf in the list of leaves.
    pub(crate) place: usize,
    pub(crate) leaf: LeafInHand,
}
