/// What names an object of a tree. The number may mean another object in another space: in a ReiserFS volume the two are
/// `dir_id` and `objectid` of a key, in a Btrfs volume 0 with the number of an inode, or 1 with that of a tree.
#[derive(Clone, Copy, Debug, PartialEq, Eq, PartialOrd, Ord, Hash)]
pub struct NodeId {
    /// The space of the number.
    pub space: u64,
    /// The number of the object.
    pub number: u64,
}
