use crate::{FileMap, RunFrom};

/// Makes the map of a file in one pass over its items.
///
/// It holds what is known of one block of the file; a hole costs nothing, also where it is stored as many pointers.
#[derive(Drop)]
pub struct FileMapper {
    /// The blocks of the file before the one in hand.
    pub(crate) map: FileMap,
    /// Where the block in hand lies.
    pub(crate) from: Option<RunFrom>,
    /// Its number in the file.
    pub(crate) next: u64,
    /// The size of the file in bytes.
    pub(crate) size: u64,
}
