ghost use Rattle.std.specs.Prelude.{IfOk};
ghost use Rattle.fs_paths.specs.Links.{AreNamedOnce};
ghost use Rattle.fs_paths.specs.Paths.{ArePaths};

use crate::first_path::number;
use crate::path_found::compare;
use crate::spread::spread;
use crate::{NodeId, NodeLink, PathTo};
use fs_rows::Memory;
use std::alloc::Global;

/// The paths of the tree below `root`, which ascend. The root's own path is the first, and has no names. Links of
/// directories that the root does not reach give no path.
///
/// Of links that name the root, a directory twice, or one name twice in a directory, the list may be any. The time grows
/// with the number of paths and the names in them. Without memory there is no list.
pub fn paths(alloc: Global, links: Vec<NodeLink>, root: NodeId) -> Result<Vec<PathTo>, Memory>
    ensures { IfOk result (λ list. AreNamedOnce links.items root → ArePaths links.items root list.items) }
{
    let mut links = links;
    links.sort_by_key(|link| link.dir)?;
    let mut found = spread(alloc, &links, root)?;
    drop(links);
    found.sort_by(|a, b| compare(&a.path, &b.path))?;
    number(alloc, found)
}
