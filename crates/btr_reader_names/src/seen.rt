ghost use Rattle.std.specs.Prelude.{◌≡◌, ◌||◌, ◌++◌, ◌∷◌, [], not, ℕ, Bool, true, List, nat_eq, AllPairs, OnOk, IfOk, IfErr};
ghost use Rattle.std.specs.Result.{MatchResult};
ghost use Rattle.indexmap.specs.IndexSet.{contains};
ghost use Rattle.fs_paths.specs.Links.{same_node};
ghost use Rattle.btr_reader_names.specs.declared.dir_index.DirIndex.{DirIndex as DirIndexOf};
ghost use Rattle.btr_reader_names.specs.declared.seen.NameIn.{NameIn as NameInOf};
ghost use Rattle.btr_reader_names.specs.Passes.{same_name, DifferInName, HasSeen, IsTwice, BlamesTwice, leads_down, LeadApart, HasDirectories, BlamesAgain};
ghost use Rattle.btr_reader_names.specs.Steps.{is_open};

use crate::inode_rules::bad;
use crate::links::{is_link, is_open, names_inode};
use crate::{DirIndex, NameTable};
use btr_reader_walk::{BtrAnswer, BtrRule, Memory};
use fs_paths::NodeId;
use indexmap::IndexSet;
use std::alloc::Global;

/// A name in a directory, to be looked up among those that were seen.
#[derive(Debug, PartialEq, Eq, Hash, Drop)]
pub struct NameIn {
    pub dir: u64,
    pub name: Vec<u8>,
}

/// Whether no named directory has one name twice.
pub fn check_once(
    alloc: Global,
    names: &NameTable,
    named: &IndexSet<NodeId>,
) -> Result<(), BtrAnswer>
    ensures once { OnOk result (AllPairs (DifferInName (is_open names.now (contains same_node named.now))) names.now.namings.items) }
    ensures twice { IfErr result (BlamesTwice (is_open names.now (contains same_node named.now)) names.now.namings.items) }
{
    let mut seen = IndexSet::new(alloc);
    for naming in &names.namings {
        see_open(&mut seen, alloc, names, named, naming)?;
    }
    Ok(())
}

/// Adds a name to those that were seen, if its directory is named and has it not yet.
fn see_open(
    seen: &mut IndexSet<NameIn>,
    alloc: Global,
    names: &NameTable,
    named: &IndexSet<NodeId>,
    naming: &DirIndex,
) -> Result<(), BtrAnswer>
    ensures { (before : List DirIndexOf) → HasSeen (is_open names.now (contains same_node named.now)) seen.old before
        → MatchResult result (λ _. HasSeen (is_open names.now (contains same_node named.now)) seen.new (before ++ naming.now ∷ [])) (BlamesTwice (is_open names.now (contains same_node named.now)) (before ++ naming.now ∷ [])) }
{
    if is_open(names, named, naming.dir) {
        see_name(seen, alloc, naming)
    } else {
        Ok(())
    }
}

/// Adds a name to those that were seen, if its directory has it not yet.
pub fn see_name(
    seen: &mut IndexSet<NameIn>,
    alloc: Global,
    naming: &DirIndex,
) -> Result<(), BtrAnswer>
    ensures answer { IfErr result (IsTwice naming.now) }
    ensures seen { (opened : ℕ → Bool) (before : List DirIndexOf) → opened naming.now.dir ≡ true → HasSeen opened seen.old before
        → MatchResult result (λ _. HasSeen opened seen.new (before ++ naming.now ∷ [])) (BlamesTwice opened (before ++ naming.now ∷ [])) }
{
    let name = name_in(alloc, naming)?;
    if add_name(seen, name)? {
        Ok(())
    } else {
        Err(BtrAnswer::Refused(bad(naming.leaf, BtrRule::NameForm)))
    }
}

/// The name of an entry with its directory.
fn name_in(alloc: Global, naming: &DirIndex) -> Result<NameIn, Memory>
    ensures dir { IfOk result (λ name. name.dir ≡ naming.now.dir) }
    ensures name { IfOk result (λ name. name.name.items ≡ naming.now.name) }
{
    Ok(NameIn {
        dir: naming.dir,
        name: Vec::from_slice(alloc, naming.name.bytes())?,
    })
}

/// Adds a name to a set. Whether it is new.
fn add_name(names: &mut IndexSet<NameIn>, name: NameIn) -> Result<bool, Memory>
    ensures added { IfOk result (λ new. new ≡ not (contains same_name names.old name)) }
    ensures has { OnOk result ((q : NameInOf) → contains same_name names.new q ≡ (same_name name q || contains same_name names.old q)) }
{
    let new = names.insert(name)?;
    Ok(new)
}

/// Whether no directory is named twice.
pub fn check_directories(
    alloc: Global,
    names: &NameTable,
    named: &IndexSet<NodeId>,
) -> Result<(), BtrAnswer>
    ensures apart { OnOk result (AllPairs (LeadApart names.now (contains same_node named.now)) names.now.namings.items) }
    ensures again { IfErr result (BlamesAgain names.now (contains same_node named.now) names.now.namings.items) }
{
    let mut seen = IndexSet::new(alloc);
    for naming in &names.namings {
        see_target(&mut seen, names, named, naming)?;
    }
    Ok(())
}

/// Adds the directory that an entry leads to, if it was not seen yet.
fn see_target(
    seen: &mut IndexSet<u64>,
    names: &NameTable,
    named: &IndexSet<NodeId>,
    naming: &DirIndex,
) -> Result<(), BtrAnswer>
    ensures { (before : List DirIndexOf) → HasDirectories names.now (contains same_node named.now) seen.old before
        → MatchResult result (λ _. HasDirectories names.now (contains same_node named.now) seen.new (before ++ naming.now ∷ [])) (BlamesAgain names.now (contains same_node named.now) (before ++ naming.now ∷ [])) }
{
    if !leads_down(names, named, naming) {
        return Ok(());
    }
    if add(seen, naming.location.objectid)? {
        Ok(())
    } else {
        Err(BtrAnswer::Refused(bad(naming.leaf, BtrRule::DirTwice)))
    }
}

/// Whether an entry of a named directory leads to a directory.
fn leads_down(names: &NameTable, named: &IndexSet<NodeId>, naming: &DirIndex) -> bool
    ensures { result ≡ leads_down names.now (contains same_node named.now) naming.now }
{
    is_link(names, named, naming)
        && names_inode(naming)
        && names.is_directory(naming.location.objectid)
}

/// Adds a number to a set. Whether it is new.
fn add(numbers: &mut IndexSet<u64>, number: u64) -> Result<bool, Memory>
    ensures added { IfOk result (λ new. new ≡ not (contains nat_eq numbers.old number)) }
    ensures has { OnOk result ((other : ℕ) → contains nat_eq numbers.new other ≡ (nat_eq number other || contains nat_eq numbers.old other)) }
{
    let new = numbers.insert(number)?;
    Ok(new)
}
