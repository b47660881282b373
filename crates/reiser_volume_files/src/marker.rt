use fs_rows::FileBytes;

/// Makes the mark of a file in one pass over its items.
///
/// It holds one block of the file, which is gathered from direct items or read from the volume; a hole costs nothing.
#[derive(Drop)]
pub struct FileMarker {
    /// The bytes of the file.
    pub(crate) file: FileBytes,
}
