ghost use Rattle.std.specs.Prelude.{◌≡◌};
ghost use Rattle.fs_rows.specs.Rows.{path_cmp};

use crate::NodeId;
use fs_rows::Path;
use std::cmp::Ordering;

/// A path from the root, and the object that it leads to.
#[derive(Debug, Drop)]
pub struct PathFound {
    /// The names from the root on.
    pub path: Path,
    /// The object.
    pub target: NodeId,
}

/// The order of two paths: that of the first names that differ, by their bytes, and a path before those that begin with it.
pub fn compare(a: &Path, b: &Path) -> Ordering
    ensures { result ≡ path_cmp a.now b.now }
{
    for i in 0..a.len().min(b.len()) {
        let order = a.get(i).bytes().cmp(b.get(i).bytes());
        if order.is_ne() {
            return order;
        }
    }
    a.len().cmp(&b.len())
}
