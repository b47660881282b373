ghost use Rattle.std.specs.Prelude.{◌≡◌, ◌<◌, ◌++◌, length, slice_index_or, IfOk, OnOk};
ghost use Rattle.fs_paths.specs.declared.path_found.PathFound.{PathFound as PathFoundOf};
ghost use Rattle.fs_paths.specs.Spread.{AscendByDirectory, FormTree, Reaches, children};

use crate::entries::links_of;
use crate::path_found::PathFound;
use crate::{NodeId, NodeLink};
use fs_rows::{Memory, Path};
use std::alloc::Global;

/// What the root reaches over links that ascend by their directory: each path once, a directory's before those below it.
///
/// In a tree each path but the root's has a link of its own. Where there are more paths, the links make no tree, and the
/// list ends there.
pub fn spread(alloc: Global, links: &[NodeLink], root: NodeId) -> Result<Vec<PathFound>, Memory>
    requires { AscendByDirectory links.now }
    ensures { IfOk result (λ found. FormTree links.now root → Reaches links.now root found.items) }
{
    let mut found = Vec::new(alloc);
    found.push(PathFound {
        path: Path::new(alloc),
        target: root,
    })?;
    let mut i = 0;
    while i < found.len() && found.len() <= links.len() + 1 {
        follow(links, &mut found, i)?;
        i += 1;
    }
    Ok(found)
}

/// Appends a path for each link of the directory that path number `i` leads to.
fn follow(links: &[NodeLink], found: &mut Vec<PathFound>, i: usize) -> Result<(), Memory>
    requires within { i < length found.old.items }
    requires ascend { AscendByDirectory links.now }
    ensures { OnOk result ((d : PathFoundOf) → found.new.items ≡ found.old.items ++ children links.now (slice_index_or found.old.items i d)) }
{
    let dir = found[i].target;
    for link in links_of(links, dir) {
        let path = found[i].path.joined(&link.name)?;
        found.push(PathFound {
            path,
            target: link.target,
        })?;
    }
    Ok(())
}
