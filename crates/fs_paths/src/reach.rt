ghost use Rattle.std.specs.Prelude.{◌≡◌, ◌≤◌, ◌+◌, length, IfOk, OnOk};
ghost use Rattle.indexmap.specs.IndexSet.{contains, insert_key};
ghost use Rattle.fs_paths.specs.Links.{same_node};
ghost use Rattle.fs_paths.specs.Queue.{followed, waiting};
ghost use Rattle.fs_paths.specs.Reached.{AreReached};
ghost use Rattle.fs_paths.specs.Spread.{AscendByDirectory};

use crate::entries::links_of;
use crate::{NodeId, NodeLink};
use fs_rows::Memory;
use indexmap::IndexSet;
use std::alloc::Global;

/// The objects that `root` reaches over links, the root among them, in the order in which they are found.
///
/// The links may be any: they may form circles, or name an object several times. Names are not looked at. The time is that
/// of sorting the links, and a search among them for each object that is reached.
pub fn reached(
    alloc: Global,
    links: Vec<NodeLink>,
    root: NodeId,
) -> Result<IndexSet<NodeId>, Memory>
    ensures { IfOk result (λ set. AreReached links.items root (contains same_node set)) }
{
    let mut links = links;
    links.sort_by_key(|link| link.dir)?;
    reach_sorted(alloc, &links, root)
}

/// The same over links that ascend by their directory.
fn reach_sorted(alloc: Global, links: &[NodeLink], root: NodeId) -> Result<IndexSet<NodeId>, Memory>
    requires { AscendByDirectory links.now }
    ensures { IfOk result (λ set. AreReached links.now root (contains same_node set)) }
{
    let mut queue = IndexSet::new(alloc);
    add(&mut queue, root)?;
    let mut i = 0;
    while i < queue.len() {
        let dir = queue.as_slice()[i];
        follow(links, &mut queue, dir)?;
        i += 1;
    }
    Ok(queue)
}

/// Adds what the links of a directory name.
fn follow(links: &[NodeLink], queue: &mut IndexSet<NodeId>, dir: NodeId) -> Result<(), Memory>
    requires { AscendByDirectory links.now }
    ensures followed { OnOk result (queue.new.keys ≡ followed links.now queue.old.keys dir) }
    ensures fewer { OnOk result (waiting links.now queue.new.keys + length queue.new.keys ≤ waiting links.now queue.old.keys + length queue.old.keys) }
{
    for link in links_of(links, dir) {
        add(queue, link.target)?;
    }
    Ok(())
}

/// Adds an object behind the others, if it is not among them.
fn add(queue: &mut IndexSet<NodeId>, node: NodeId) -> Result<(), Memory>
    ensures { OnOk result (queue.new.keys ≡ insert_key same_node queue.old.keys node) }
{
    let _place = queue.insert_full(node)?;
    Ok(())
}
