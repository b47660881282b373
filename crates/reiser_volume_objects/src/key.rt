/// What names an object in the keys of its items.
#[derive(Clone, Copy, Debug, PartialEq, Eq, PartialOrd, Ord, Hash)]
pub struct ObjectKey {
    /// The number of the directory that the object was made in (`dir_id`).
    pub dir: u32,
    /// The number of the object.
    pub object: u32,
}
