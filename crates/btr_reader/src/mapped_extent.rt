/// A piece of a file whose addresses follow one another.
#[derive(Clone, Copy, Debug, PartialEq, Eq)]
pub struct MappedExtent {
    /// Its first block in the file.
    pub first: u64,
    /// How many blocks it has.
    pub count: u64,
    /// The logical address of its disk extent, in bytes.
    pub disk: u64,
    /// Where in the disk extent it begins, in bytes.
    pub offset: u64,
}
