/// The identifiers that a converted volume gets, each the sixteen bytes of a UUID.
#[derive(Clone, Copy, Debug, PartialEq, Eq)]
pub struct Ids {
    /// The file system's.
    pub fsid: [u8; 16],
    /// The device's.
    pub device: [u8; 16],
    /// The chunk tree's.
    pub chunk_tree: [u8; 16],
    /// That of the subvolume that keeps the old volume.
    pub subvolume: [u8; 16],
}
