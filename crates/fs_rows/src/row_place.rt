use crate::Path;

/// Where a row stands.
#[derive(Drop)]
pub struct RowPlace {
    /// The path.
    pub path: Path,
    /// The least path of the same object.
    pub least: Path,
    /// How many paths the object has.
    pub names: u64,
}
