ghost use Rattle.std.specs.Prelude.{true, ◌≡◌, ◌≤◌, ◌<◌, ◌+◌, ◌++◌, ◌∷◌, [], ◌&&◌, ◌^◌, ℕ, not, List, count_by, OnOk, IfOk, IfErr, if◌then◌else◌};
ghost use Rattle.std.specs.Ordering.{is_lt};
ghost use Rattle.std.specs.List.Sorted.{IsStrictlySortedBy};
ghost use Rattle.std.specs.Result.{MatchResult};
ghost use Rattle.indexmap.specs.IndexSet.{contains};
ghost use Rattle.reiser_volume_objects.specs.declared.key.ObjectKey.{ObjectKey as KeyOf};
ghost use Rattle.reiser_volume_objects.specs.declared.naming.Naming.{Naming as NamingOf};
ghost use Rattle.reiser_volume_objects.specs.Keys.{same_key, root};
ghost use Rattle.reiser_volume_names.specs.declared.extended.NamesIn.{NamesIn as NamesInOf};
ghost use Rattle.reiser_volume_names.specs.Extended.{same_names, CountsExtended, Refers, BlamesExtended};
ghost use Rattle.reiser_volume_names.specs.Links.{object_cmp};
ghost use Rattle.reiser_volume_names.specs.Names.{ino_of_key, extended, extended_crowd_of};
ghost use Rattle.reiser_volume_names.specs.Passes.{is_link, link_list};
ghost use Rattle.reiser_volume_names.specs.Tally.{tally, capped};

use crate::crowd::{Crowd, add, is_link, size_with};
use castagnoli::extref_hash;
use indexmap::{IndexMap, IndexSet};
use reiser_volume_objects::{Memory, Naming, ObjectKey, Objects, ROOT, VolAnswer, VolumeRefusal};
use std::alloc::Global;

/// The names of one object in one directory.
#[derive(Clone, Copy, Debug, PartialEq, Eq, Hash)]
pub struct NamesIn {
    pub dir: ObjectKey,
    pub object: ObjectKey,
}

/// Adds the name of a link to its reference; where that is full, to the extended reference of its hash, if there is room.
fn refer_link(
    sizes: &mut IndexMap<NamesIn, u64>,
    sums: &mut IndexMap<Crowd, u64>,
    named: &IndexSet<ObjectKey>,
    naming: &Naming,
) -> Result<(), VolAnswer>
    requires sorted { IsStrictlySortedBy object_cmp named.now.keys }
    ensures { (links : List NamingOf) → Refers named.now.keys sizes.old sums.old links → let more = if is_link (contains same_key named.now) naming.now then naming.now ∷ [] else [] in
        MatchResult result (λ _. Refers named.now.keys sizes.new sums.new (links ++ more)) (BlamesExtended named.now.keys (extended [] (links ++ more))) }
{
    if is_link(named, naming) {
        refer(sizes, sums, named, naming)
    } else {
        Ok(())
    }
}

/// The same of an entry that is a link.
fn refer(
    sizes: &mut IndexMap<NamesIn, u64>,
    sums: &mut IndexMap<Crowd, u64>,
    named: &IndexSet<ObjectKey>,
    naming: &Naming,
) -> Result<(), VolAnswer>
    requires sorted { IsStrictlySortedBy object_cmp named.now.keys }
    requires among { contains same_key named.now naming.now.dir ≡ true }
    ensures { (links : List NamingOf) → Refers named.now.keys sizes.old sums.old links
        → MatchResult result (λ _. Refers named.now.keys sizes.new sums.new (links ++ naming.now ∷ [])) (BlamesExtended named.now.keys (extended [] (links ++ naming.now ∷ []))) }
{
    let names = NamesIn {
        dir: naming.dir,
        object: naming.target,
    };
    let size = add_size(sizes, names, size_with(10, naming.name.bytes()))?;
    if size > 3900 {
        extend(sums, named, naming)
    } else {
        Ok(())
    }
}

/// Adds a name to the extended reference of its hash, if there is room.
fn extend(
    sums: &mut IndexMap<Crowd, u64>,
    named: &IndexSet<ObjectKey>,
    naming: &Naming,
) -> Result<(), VolAnswer>
    requires sorted { IsStrictlySortedBy object_cmp named.now.keys }
    requires among { contains same_key named.now naming.now.dir ≡ true }
    ensures { (ns : List NamingOf) → CountsExtended named.now.keys sums.old ns
        → MatchResult result (λ _. CountsExtended named.now.keys sums.new (ns ++ naming.now ∷ [])) (BlamesExtended named.now.keys (ns ++ naming.now ∷ [])) }
{
    let name = naming.name.bytes();
    let hash = extref_hash(inode_of(named, naming.dir), name);
    let crowd = Crowd {
        of: naming.target,
        hash,
    };
    let sum = add(sums, crowd, size_with(18, name))?;
    if sum > 3900 {
        return Err(VolAnswer::Refused(VolumeRefusal::HashCrowd {
            dir: naming.target.dir,
            object: naming.target.object,
            hash,
        }));
    }
    Ok(())
}

/// The number that a directory gets in Btrfs: 256 for the root, and 257 and up for the others in the order of their keys.
fn inode_of(named: &IndexSet<ObjectKey>, dir: ObjectKey) -> u64
    requires sorted { IsStrictlySortedBy object_cmp named.now.keys }
    requires among { contains same_key named.now dir ≡ true }
    ensures { result ≡ ino_of_key named.now.keys dir }
{
    if dir == ROOT {
        return 256;
    }
    257 + count_before(named, dir)
}

/// How many of the named objects below the root have keys before that of a directory.
fn count_before(named: &IndexSet<ObjectKey>, dir: ObjectKey) -> u64
    requires sorted { IsStrictlySortedBy object_cmp named.now.keys }
    requires among { contains same_key named.now dir ≡ true }
    ensures count { result ≡ count_by (λ k. is_lt (object_cmp k dir) && not (same_key k root)) named.now.keys }
    ensures small { result < 2 ^ 63 }
{
    let count = named.len();
    let place = named.get_index_of(&dir).unwrap();
    prove!(place < count);
    place as u64 - one_if(is_root_before(named, dir))
}

fn one_if(test: bool) -> u64
    ensures { result ≡ (if test then 1 else 0) }
{
    if test { 1 } else { 0 }
}

/// Whether the root is named and its key before that of a directory.
fn is_root_before(named: &IndexSet<ObjectKey>, dir: ObjectKey) -> bool
    ensures { result ≡ (contains same_key named.now root && is_lt (object_cmp root dir)) }
{
    named.contains(&ROOT) && ROOT.cmp(&dir).is_lt()
}

/// Adds to a size, which stays at the last value of 64 bits.
fn add_size(sizes: &mut IndexMap<NamesIn, u64>, names: NamesIn, size: u64) -> Result<u64, Memory>
    ensures size { IfOk result (λ now. now ≡ capped (tally same_names sizes.old names + size)) }
    ensures sizes { OnOk result ((q : NamesInOf) → tally same_names sizes.new q ≡ (if same_names names q then capped (tally same_names sizes.old names + size) else tally same_names sizes.old q)) }
{
    let now = sizes.get(&names).copied().unwrap_or(0).saturating_add(size);
    sizes.insert(names, now)?;
    Ok(now)
}

/// Whether what goes into extended references fits: the names of each object with one hash into one item of Btrfs.
pub fn check_extended(
    alloc: Global,
    objects: &Objects,
    named: &IndexSet<ObjectKey>,
) -> Result<(), VolAnswer>
    requires sorted { IsStrictlySortedBy object_cmp named.now.keys }
    ensures fit { OnOk result ((object : KeyOf) (hash : ℕ) → extended_crowd_of (link_list (contains same_key named.now) objects.now.namings.items) named.now.keys object hash ≤ 3900) }
    ensures blamed { IfErr result (BlamesExtended named.now.keys (extended [] (link_list (contains same_key named.now) objects.now.namings.items))) }
{
    let mut sizes = IndexMap::new(alloc);
    let mut sums = IndexMap::new(alloc);
    for naming in &objects.namings {
        refer_link(&mut sizes, &mut sums, named, naming)?;
    }
    Ok(())
}
