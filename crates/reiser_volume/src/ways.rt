ghost use Rattle.std.specs.Prelude.{◌≡◌, ◌++◌, ◌∷◌, [], map, IfOk, OnOk, if◌then◌else◌};
ghost use Rattle.std.specs.List.{All};
ghost use Rattle.reiser_bitmap.specs.outside.History.{Image};
ghost use Rattle.reiser_volume_names.specs.Known.{is_known};
ghost use Rattle.reiser_volume.specs.Opened.{IsOpened, links_in};
ghost use Rattle.reiser_volume_names.specs.Passes.{is_link};
ghost use Rattle.reiser_volume.specs.Volume.{IsAccepted};
ghost use Rattle.reiser_volume_objects.specs.Nodes.{FitsKey};
ghost use Rattle.reiser_volume.specs.Ways.{link_of, HasPaths};

use crate::Volume;
use fs_paths::{NodeLink, PathTo, paths};
use reiser_bitmap::Memory;
use reiser_volume_objects::{Naming, ROOT, node_of};
use std::alloc::Global;

/// The paths of the volume's tree, which ascend.
pub fn paths_of(alloc: Global, volume: &Volume) -> Result<Vec<PathTo>, Memory>
    ensures { (image : Image) → IsAccepted image → IsOpened volume.now image → IfOk result (λ list. HasPaths volume.now list.items) }
{
    let links = links_of(alloc, volume)?;
    paths(alloc, links, node_of(ROOT))
}

/// The links of a volume.
fn links_of(alloc: Global, volume: &Volume) -> Result<Vec<NodeLink>, Memory>
    ensures links { IfOk result (λ links. links.items ≡ map link_of (links_in volume.now)) }
    ensures fit { IfOk result (λ links. All (λ l. FitsKey l.target) links.items) }
{
    let mut links = Vec::new(alloc);
    for naming in &volume.objects.namings {
        add_link(&mut links, volume, naming)?;
    }
    Ok(links)
}

/// Adds an entry, if it is a link.
fn add_link(links: &mut Vec<NodeLink>, volume: &Volume, naming: &Naming) -> Result<(), Memory>
    ensures links { OnOk result (links.new.items ≡ links.old.items ++ (if is_link (is_known volume.now.named) naming.now then link_of naming.now ∷ [] else [])) }
    ensures fit { OnOk result (All (λ l. FitsKey l.target) links.old.items → All (λ l. FitsKey l.target) links.new.items) }
{
    if volume.is_link(naming) {
        links.push(link_of(naming)?)?;
    }
    Ok(())
}

fn link_of(naming: &Naming) -> Result<NodeLink, Memory>
    ensures link { IfOk result (λ link. link ≡ link_of naming.now) }
    ensures fits { IfOk result (λ link. FitsKey link.target) }
{
    Ok(NodeLink {
        dir: node_of(naming.dir),
        target: node_of(naming.target),
        name: naming.name.clone()?,
    })
}
