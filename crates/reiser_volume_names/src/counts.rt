ghost use Rattle.std.specs.Prelude.{IfErr, ◌≡◌, ◌≤◌, ◌<◌, ◌+◌, ◌^◌, ◌++◌, ◌∷◌, [], ℕ, true, List, OnOk, IfOk, if◌then◌else◌};
ghost use Rattle.std.specs.Result.{MatchResult};
ghost use Rattle.indexmap.specs.IndexSet.{contains};
ghost use Rattle.reiser_volume_objects.specs.reiser_walk.Items.{ReiserItem};
ghost use Rattle.reiser_volume_objects.specs.declared.key.ObjectKey.{ObjectKey as KeyOf};
ghost use Rattle.reiser_volume_objects.specs.declared.naming.Naming.{Naming as NamingOf};
ghost use Rattle.reiser_volume_objects.specs.Keys.{same_key};
ghost use Rattle.reiser_volume_objects.specs.Table.{HasNoted};
ghost use Rattle.reiser_volume_names.specs.Counts.{CountsNames, BlamesCount, is_counted, names_of};
ghost use Rattle.reiser_volume_names.specs.Passes.{is_link, link_list};
ghost use Rattle.reiser_volume_names.specs.Tally.{tally, capped};
ghost use Rattle.reiser_volume_names.specs.Refuses.{IsNamesAnswer};

use crate::crowd::is_link;
use indexmap::{IndexMap, IndexSet};
use reiser_volume_objects::{Memory, Naming, ObjectKey, Objects, Rule, VolAnswer, VolumeRefusal};
use std::alloc::Global;

/// Whether each object that is no directory has fewer than 2^32 names, since a link count of Btrfs tells no more.
pub fn check_counts(
    alloc: Global,
    objects: &Objects,
    named: &IndexSet<ObjectKey>,
) -> Result<(), VolAnswer>
    ensures checked { (items : List ReiserItem) → HasNoted objects.now items → let links = link_list (contains same_key named.now) objects.now.namings.items in
        MatchResult result (λ _. (key : KeyOf) → is_counted items key ≡ true → names_of links key < 2 ^ 32) (BlamesCount items links) }
    ensures answers { IfErr result IsNamesAnswer }
{
    let mut counts = IndexMap::new(alloc);
    for naming in &objects.namings {
        count_link(&mut counts, objects, named, naming)?;
    }
    Ok(())
}

/// Counts the name of a link.
fn count_link(
    counts: &mut IndexMap<ObjectKey, u64>,
    objects: &Objects,
    named: &IndexSet<ObjectKey>,
    naming: &Naming,
) -> Result<(), VolAnswer>
    ensures checked { (items : List ReiserItem) (links : List NamingOf) → HasNoted objects.now items → CountsNames items counts.old links
        → let more = if is_link (contains same_key named.now) naming.now then naming.now ∷ [] else [] in
        MatchResult result (λ _. CountsNames items counts.new (links ++ more)) (BlamesCount items (links ++ more)) }
    ensures answers { IfErr result IsNamesAnswer }
{
    if is_link(named, naming) {
        count_target(counts, objects, naming)
    } else {
        Ok(())
    }
}

/// The same of an entry that is a link. Names of directories are not counted.
fn count_target(
    counts: &mut IndexMap<ObjectKey, u64>,
    objects: &Objects,
    naming: &Naming,
) -> Result<(), VolAnswer>
    ensures checked { (items : List ReiserItem) (links : List NamingOf) → HasNoted objects.now items → CountsNames items counts.old links
        → MatchResult result (λ _. CountsNames items counts.new (links ++ naming.now ∷ [])) (BlamesCount items (links ++ naming.now ∷ [])) }
    ensures answers { IfErr result IsNamesAnswer }
{
    if objects.is_directory(naming.target) {
        return Ok(());
    }
    match objects.stat(naming.target) {
        None => Ok(()),
        Some(stat) => {
            if add(counts, naming.target)? >= 1 << 32 {
                return Err(VolAnswer::Refused(VolumeRefusal::Damaged {
                    block: stat.leaf,
                    rule: Rule::SizeRange,
                }));
            }
            Ok(())
        }
    }
}

/// Adds one to the count of an object, which stays at the last value of 64 bits.
fn add(counts: &mut IndexMap<ObjectKey, u64>, key: ObjectKey) -> Result<u64, Memory>
    ensures count { IfOk result (λ count. count ≡ capped (tally same_key counts.old key + 1)) }
    ensures counts { OnOk result ((q : KeyOf) → tally same_key counts.new q ≡ (if same_key key q then capped (tally same_key counts.old key + 1) else tally same_key counts.old q)) }
{
    let count = counts.get(&key).copied().unwrap_or(0).saturating_add(1);
    counts.insert(key, count)?;
    Ok(count)
}
