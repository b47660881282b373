ghost use Rattle.std.specs.Prelude.{◌≡◌, ◌||◌, ◌++◌, ◌∷◌, [], ℕ, List, Contains, OnOk, IfOk, IfErr, if◌then◌else◌};
ghost use Rattle.std.specs.Result.{MatchResult};
ghost use Rattle.indexmap.specs.IndexSet.{contains};
ghost use Rattle.fs_paths.specs.Links.{same_node};
ghost use Rattle.reiser_walk.specs.Items.{ReiserItem};
ghost use Rattle.reiser_volume_objects.specs.declared.key.ObjectKey.{ObjectKey as KeyOf};
ghost use Rattle.reiser_volume_objects.specs.Keys.{same_key, root};
ghost use Rattle.reiser_volume_objects.specs.Names.{is_followed, namings};
ghost use Rattle.reiser_volume_objects.specs.Rules.{IsDirectory};
ghost use Rattle.reiser_volume_objects.specs.Nodes.{step_of, steps};
ghost use Rattle.reiser_volume_objects.specs.Reach.{TellsReached, FollowsEntry, AreSeen, IsReach, Refuses, IsObjectsAnswer};
ghost use Rattle.reiser_volume_objects.specs.Table.{HasNoted};

use crate::kinds::is_directory_mode;
use crate::{Naming, ObjectKey, Objects, node_of};
use fs_paths::fs_rows::Name;
use fs_paths::{NodeId, NodeLink, reached};
use indexmap::IndexSet;
use reiser_bitmap::reiserfs_format::key::{ROOT_OBJECTID, ROOT_PARENT_OBJECTID};
use reiser_bitmap::{Memory, Rule, VolAnswer, VolumeRefusal};
use reiser_items::BlockNo;
use std::alloc::Global;

/// The root directory.
pub const ROOT: ObjectKey = ObjectKey {
    dir: ROOT_PARENT_OBJECTID,
    object: ROOT_OBJECTID,
};

/// The name of the root's private directory, in which Linux keeps extended attributes.
const PRIVATE: &[u8; 14] = b".reiserfs_priv";

/// The objects that the root reaches, of which the items say nothing wrong so far.
///
/// The time is that of sorting the entries, and a search among them for each object.
pub fn reach(
    alloc: Global,
    objects: &Objects,
    root_block: BlockNo,
) -> Result<IndexSet<ObjectKey>, VolAnswer>
    ensures reached { (items : List ReiserItem) → HasNoted objects.now items
        → MatchResult result (λ named. IsReach items (contains same_key named)) (Refuses root_block items) }
    ensures answers { IfErr result IsObjectsAnswer }
{
    check_root(objects, root_block)?;
    let nodes = reached(alloc, steps_of(alloc, objects)?, node_of(ROOT))?;
    named_by(alloc, objects, &nodes)
}

/// Whether the root is a directory.
fn check_root(objects: &Objects, root_block: BlockNo) -> Result<(), VolAnswer>
    ensures checked { (items : List ReiserItem) → HasNoted objects.now items → MatchResult result (λ _. IsDirectory items root) (Refuses root_block items) }
    ensures answers { IfErr result IsObjectsAnswer }
{
    match objects.stat(ROOT) {
        None => Err(off_form(root_block)),
        Some(stat) => {
            if is_directory_mode(stat.fields.mode) {
                Ok(())
            } else {
                Err(off_form(stat.leaf))
            }
        }
    }
}

fn off_form(block: BlockNo) -> VolAnswer
    ensures { result ≡ VolAnswer.Refused (VolumeRefusal.Damaged block Rule.ObjectForm) }
{
    VolAnswer::Refused(VolumeRefusal::Damaged {
        block,
        rule: Rule::ObjectForm,
    })
}

/// The steps of the entries that are followed.
fn steps_of(alloc: Global, objects: &Objects) -> Result<Vec<NodeLink>, Memory>
    ensures { IfOk result (λ links. links.items ≡ steps objects.now.namings.items) }
{
    let mut links = Vec::new(alloc);
    for naming in &objects.namings {
        add_step(&mut links, alloc, naming)?;
    }
    Ok(links)
}

/// Adds the step of an entry, if it is followed.
fn add_step(links: &mut Vec<NodeLink>, alloc: Global, naming: &Naming) -> Result<(), Memory>
    ensures { OnOk result (links.new.items ≡ links.old.items ++ (if is_followed naming.now then step_of naming.now ∷ [] else [])) }
{
    if is_followed(naming) {
        links.push(step_of(alloc, naming)?)?;
    }
    Ok(())
}

/// The step of an entry. Its name is left out, and takes no memory.
fn step_of(alloc: Global, naming: &Naming) -> Result<NodeLink, Memory>
    ensures { IfOk result (λ link. link ≡ step_of naming.now) }
{
    Ok(NodeLink {
        dir: node_of(naming.dir),
        target: node_of(naming.target),
        name: Name::new(alloc, &[])?,
    })
}

/// The root, and what the entries of the directories among these nodes name.
fn named_by(
    alloc: Global,
    objects: &Objects,
    nodes: &IndexSet<NodeId>,
) -> Result<IndexSet<ObjectKey>, VolAnswer>
    ensures named { (items : List ReiserItem) → HasNoted objects.now items → IsDirectory items root → TellsReached items (contains same_node nodes.now)
        → MatchResult result (λ named. IsReach items (contains same_key named)) (λ e. (root_block : ℕ) → Refuses root_block items e) }
    ensures answers { IfErr result IsObjectsAnswer }
{
    let mut named = IndexSet::new(alloc);
    add(&mut named, ROOT)?;
    for i in 0..objects.namings.len() {
        follow(objects, nodes, &mut named, &objects.namings[i])?;
    }
    Ok(named)
}

/// Adds the object that an entry names, if the directory is among these nodes.
fn follow(
    objects: &Objects,
    nodes: &IndexSet<NodeId>,
    named: &mut IndexSet<ObjectKey>,
    naming: &Naming,
) -> Result<(), VolAnswer>
    ensures follows { OnOk result (FollowsEntry naming.now (contains same_node nodes.now) (contains same_key named.old) (contains same_key named.new)) }
    ensures sound { (items : List ReiserItem) → HasNoted objects.now items → Contains (namings items) naming.now
        → TellsReached items (contains same_node nodes.now) → AreSeen items (contains same_key named.old)
        → MatchResult result (λ _. AreSeen items (contains same_key named.new)) (λ e. (root_block : ℕ) → Refuses root_block items e) }
    ensures answers { IfErr result IsObjectsAnswer }
{
    if !is_followed(naming) || !nodes.contains(&node_of(naming.dir)) {
        return Ok(());
    }
    if objects.stat(naming.target).is_none() {
        return Err(off_form(naming.leaf));
    }
    add(named, naming.target)?;
    Ok(())
}

/// Whether an entry is one of the tree: the private directory of the root is no part of it.
pub fn is_followed(naming: &Naming) -> bool
    ensures { result ≡ is_followed naming.now }
{
    !(ROOT == naming.dir && naming.name.bytes() == PRIVATE.as_slice())
}

/// Adds an object to those that are named.
fn add(named: &mut IndexSet<ObjectKey>, key: ObjectKey) -> Result<(), Memory>
    ensures { OnOk result ((q : KeyOf) → contains same_key named.new q ≡ (same_key key q || contains same_key named.old q)) }
{
    named.insert(key)?;
    Ok(())
}
