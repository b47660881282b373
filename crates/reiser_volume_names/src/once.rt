ghost use Rattle.std.specs.Prelude.{◌≡◌, ◌||◌, ◌++◌, ◌∷◌, [], not, List, filter, AllPairs, OnOk, IfOk, IfErr, if◌then◌else◌};
ghost use Rattle.std.specs.Result.{MatchResult};
ghost use Rattle.reiser_volume_objects.specs.declared.naming.Naming.{Naming as NamingOf};
ghost use Rattle.reiser_volume_objects.specs.Keys.{same_key};
ghost use Rattle.indexmap.specs.IndexSet.{contains};
ghost use Rattle.reiser_volume_names.specs.declared.once.KeyedName.{KeyedName as KeyedNameOf};
ghost use Rattle.reiser_volume_names.specs.Once.{same_name, DifferInName, HasSeenLinks, BlamesTwice};

use indexmap::IndexSet;
use reiser_volume_objects::{Memory, Naming, ObjectKey, Objects, Rule, VolAnswer, VolumeRefusal};
use std::alloc::Global;

/// A name in a directory.
#[derive(Debug, PartialEq, Eq, Hash, Drop)]
pub struct KeyedName {
    pub dir: ObjectKey,
    pub name: Vec<u8>,
}

/// Adds a name to those that were seen. Whether it is new.
fn add(names: &mut IndexSet<KeyedName>, name: KeyedName) -> Result<bool, Memory>
    ensures added { IfOk result (λ new. new ≡ not (contains same_name names.old name)) }
    ensures has { OnOk result ((q : KeyedNameOf) → contains same_name names.new q ≡ (same_name name q || contains same_name names.old q)) }
{
    let new = names.insert(name)?;
    Ok(new)
}

/// Whether no named directory has one name twice.
pub fn check_once(
    alloc: Global,
    objects: &Objects,
    named: &IndexSet<ObjectKey>,
) -> Result<(), VolAnswer>
    ensures once { OnOk result (AllPairs DifferInName (filter (λ n. contains same_key named.now n.dir) objects.now.namings.items)) }
    ensures twice { IfErr result (BlamesTwice (filter (λ n. contains same_key named.now n.dir) objects.now.namings.items)) }
{
    let mut names = IndexSet::new(alloc);
    for naming in &objects.namings {
        see_named(&mut names, alloc, named, naming)?;
    }
    Ok(())
}

/// Adds a name to those that were seen, if its directory is named and has it not yet.
fn see_named(
    names: &mut IndexSet<KeyedName>,
    alloc: Global,
    named: &IndexSet<ObjectKey>,
    naming: &Naming,
) -> Result<(), VolAnswer>
    ensures { (seen : List NamingOf) → HasSeenLinks names.old seen → let more = if contains same_key named.now naming.now.dir then naming.now ∷ [] else [] in
        MatchResult result (λ _. HasSeenLinks names.new (seen ++ more)) (BlamesTwice (seen ++ more)) }
{
    if named.contains(&naming.dir) {
        see(names, alloc, naming)
    } else {
        Ok(())
    }
}

/// Adds a name to those that were seen, if its directory has it not yet.
fn see(names: &mut IndexSet<KeyedName>, alloc: Global, naming: &Naming) -> Result<(), VolAnswer>
    ensures { (seen : List NamingOf) → HasSeenLinks names.old seen → MatchResult result (λ _. HasSeenLinks names.new (seen ++ naming.now ∷ [])) (BlamesTwice (seen ++ naming.now ∷ [])) }
{
    let name = name_in(alloc, naming)?;
    if add(names, name)? {
        Ok(())
    } else {
        Err(VolAnswer::Refused(VolumeRefusal::Damaged {
            block: naming.leaf,
            rule: Rule::NameTwice,
        }))
    }
}

/// The name of an entry with its directory.
fn name_in(alloc: Global, naming: &Naming) -> Result<KeyedName, Memory>
    ensures dir { IfOk result (λ name. name.dir ≡ naming.now.dir) }
    ensures name { IfOk result (λ name. name.name.items ≡ naming.now.name) }
{
    Ok(KeyedName {
        dir: naming.dir,
        name: Vec::from_slice(alloc, naming.name.bytes())?,
    })
}
