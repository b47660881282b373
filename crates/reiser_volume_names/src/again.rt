ghost use Rattle.std.specs.Prelude.{IfErr, ◌≡◌, ◌++◌, ◌∷◌, [], ◌||◌, not, List, AllPairs, OnOk, IfOk, if◌then◌else◌};
ghost use Rattle.std.specs.Result.{MatchResult};
ghost use Rattle.indexmap.specs.IndexSet.{contains};
ghost use Rattle.reiser_volume_objects.specs.reiser_walk.Items.{ReiserItem};
ghost use Rattle.reiser_volume_objects.specs.declared.key.ObjectKey.{ObjectKey as KeyOf};
ghost use Rattle.reiser_volume_objects.specs.declared.naming.Naming.{Naming as NamingOf};
ghost use Rattle.reiser_volume_objects.specs.Keys.{same_key};
ghost use Rattle.reiser_volume_objects.specs.Table.{HasNoted};
ghost use Rattle.reiser_volume_names.specs.Again.{NamesAnother, HasDirectories, BlamesAgain};
ghost use Rattle.reiser_volume_names.specs.Passes.{is_link, link_list};
ghost use Rattle.reiser_volume_names.specs.Refuses.{IsNamesAnswer};

use crate::crowd::is_link;
use indexmap::IndexSet;
use reiser_volume_objects::{Memory, Naming, ObjectKey, Objects, Rule, VolAnswer, VolumeRefusal};
use std::alloc::Global;

/// Whether no directory is named twice.
pub fn check_directories(
    alloc: Global,
    objects: &Objects,
    named: &IndexSet<ObjectKey>,
) -> Result<(), VolAnswer>
    ensures checked { (items : List ReiserItem) → HasNoted objects.now items → let links = link_list (contains same_key named.now) objects.now.namings.items in
        MatchResult result (λ _. AllPairs (NamesAnother items) links) (BlamesAgain items links) }
    ensures answers { IfErr result IsNamesAnswer }
{
    let mut seen = IndexSet::new(alloc);
    for naming in &objects.namings {
        see_link(&mut seen, objects, named, naming)?;
    }
    Ok(())
}

/// Adds the directory that a link names to those that were seen, if it was not yet.
fn see_link(
    seen: &mut IndexSet<ObjectKey>,
    objects: &Objects,
    named: &IndexSet<ObjectKey>,
    naming: &Naming,
) -> Result<(), VolAnswer>
    ensures checked { (items : List ReiserItem) (links : List NamingOf) → HasNoted objects.now items → HasDirectories items seen.old links
        → let more = if is_link (contains same_key named.now) naming.now then naming.now ∷ [] else [] in
        MatchResult result (λ _. HasDirectories items seen.new (links ++ more)) (BlamesAgain items (links ++ more)) }
    ensures answers { IfErr result IsNamesAnswer }
{
    if is_link(named, naming) {
        see_target(seen, objects, naming)
    } else {
        Ok(())
    }
}

/// The same of an entry that is a link.
fn see_target(
    seen: &mut IndexSet<ObjectKey>,
    objects: &Objects,
    naming: &Naming,
) -> Result<(), VolAnswer>
    ensures checked { (items : List ReiserItem) (links : List NamingOf) → HasNoted objects.now items → HasDirectories items seen.old links
        → MatchResult result (λ _. HasDirectories items seen.new (links ++ naming.now ∷ [])) (BlamesAgain items (links ++ naming.now ∷ [])) }
    ensures answers { IfErr result IsNamesAnswer }
{
    if !objects.is_directory(naming.target) {
        return Ok(());
    }
    if add(seen, naming.target)? {
        Ok(())
    } else {
        Err(VolAnswer::Refused(VolumeRefusal::Damaged {
            block: naming.leaf,
            rule: Rule::DirTwice,
        }))
    }
}

/// Adds a directory to those that were seen. Whether it is new.
pub fn add(seen: &mut IndexSet<ObjectKey>, key: ObjectKey) -> Result<bool, Memory>
    ensures added { IfOk result (λ new. new ≡ not (contains same_key seen.old key)) }
    ensures has { OnOk result ((q : KeyOf) → contains same_key seen.new q ≡ (same_key key q || contains same_key seen.old q)) }
{
    let new = seen.insert(key)?;
    Ok(new)
}
