ghost use Rattle.std.specs.Prelude.{◌≡◌, ◌+◌, ◌≤◌, ◌++◌, ◌∷◌, [], ℕ, List, length, OnOk, IfOk, IfErr, if◌then◌else◌};
ghost use Rattle.std.specs.Result.{MatchResult};
ghost use Rattle.indexmap.specs.IndexSet.{contains};
ghost use Rattle.reiser_volume_objects.specs.declared.naming.Naming.{Naming as NamingOf};
ghost use Rattle.reiser_volume_names.specs.Names.{crowd_of};
ghost use Rattle.reiser_volume_names.specs.Passes.{is_link, link_list};
ghost use Rattle.reiser_volume_objects.specs.declared.key.ObjectKey.{ObjectKey as KeyOf};
ghost use Rattle.reiser_volume_objects.specs.Keys.{same_key};
ghost use Rattle.reiser_volume_names.specs.declared.crowd.Crowd.{Crowd as CrowdOf};
ghost use Rattle.reiser_volume_names.specs.Crowds.{same_crowd, CrowdCounts, BlamesCrowd};
ghost use Rattle.reiser_volume_names.specs.Tally.{tally, capped};

use crate::one::SAVED;
use castagnoli::name_hash;
use indexmap::{IndexMap, IndexSet};
use reiser_volume_objects::{
    Memory, Naming, ObjectKey, Objects, ROOT, VolAnswer, VolumeRefusal, is_followed,
};
use std::alloc::Global;

/// The names of one directory, or of one object, that have one hash.
#[derive(Clone, Copy, Debug, PartialEq, Eq, Hash)]
pub struct Crowd {
    pub of: ObjectKey,
    pub hash: u32,
}

/// Whether the names of each directory that have one hash fit into one item of Btrfs.
pub fn check_crowds(
    alloc: Global,
    objects: &Objects,
    named: &IndexSet<ObjectKey>,
) -> Result<(), VolAnswer>
    ensures fit { OnOk result ((dir : KeyOf) (hash : ℕ) → crowd_of (link_list (contains same_key named.now) objects.now.namings.items) dir hash ≤ 3900) }
    ensures blamed { IfErr result (BlamesCrowd (link_list (contains same_key named.now) objects.now.namings.items)) }
{
    let mut sums = root_crowd(alloc)?;
    for naming in &objects.namings {
        join_link(&mut sums, named, naming)?;
    }
    Ok(())
}

/// The crowds without any name but the one that the root has for the converted volume.
fn root_crowd(alloc: Global) -> Result<IndexMap<Crowd, u64>, Memory>
    ensures { IfOk result (λ sums. CrowdCounts sums []) }
{
    let mut sums = IndexMap::new(alloc);
    let crowd = Crowd {
        of: ROOT,
        hash: name_hash(SAVED),
    };
    add(&mut sums, crowd, 44)?;
    Ok(sums)
}

/// Adds the name of a link to those of its directory with its hash, if there is room.
fn join_link(
    sums: &mut IndexMap<Crowd, u64>,
    named: &IndexSet<ObjectKey>,
    naming: &Naming,
) -> Result<(), VolAnswer>
    ensures { (links : List NamingOf) → CrowdCounts sums.old links → let more = if is_link (contains same_key named.now) naming.now then naming.now ∷ [] else [] in
        MatchResult result (λ _. CrowdCounts sums.new (links ++ more)) (BlamesCrowd (links ++ more)) }
{
    if is_link(named, naming) {
        join(sums, naming)
    } else {
        Ok(())
    }
}

/// Adds a name to those of its directory with its hash, if there is room.
fn join(sums: &mut IndexMap<Crowd, u64>, naming: &Naming) -> Result<(), VolAnswer>
    ensures { (links : List NamingOf) → CrowdCounts sums.old links → MatchResult result (λ _. CrowdCounts sums.new (links ++ naming.now ∷ [])) (BlamesCrowd (links ++ naming.now ∷ [])) }
{
    let name = naming.name.bytes();
    let crowd = Crowd {
        of: naming.dir,
        hash: name_hash(name),
    };
    let sum = add(sums, crowd, size_with(30, name))?;
    if sum > 3900 {
        return Err(VolAnswer::Refused(VolumeRefusal::HashCrowd {
            dir: naming.dir.dir,
            object: naming.dir.object,
            hash: crowd.hash,
        }));
    }
    Ok(())
}

/// What a record of `head` bytes and a name takes, at most the last value of 64 bits.
pub fn size_with(head: u64, name: &[u8]) -> u64
    ensures { result ≡ capped (length name.now + head) }
{
    (name.len() as u64).saturating_add(head)
}

/// Whether an entry is a link: one of the tree, in a named directory.
pub fn is_link(named: &IndexSet<ObjectKey>, naming: &Naming) -> bool
    ensures { result ≡ is_link (contains same_key named.now) naming.now }
{
    is_followed(naming) && named.contains(&naming.dir)
}

/// Adds to the sum of a crowd, which stays at the last value of 64 bits.
pub fn add(sums: &mut IndexMap<Crowd, u64>, crowd: Crowd, size: u64) -> Result<u64, Memory>
    ensures sum { IfOk result (λ sum. sum ≡ capped (tally same_crowd sums.old crowd + size)) }
    ensures sums { OnOk result ((q : CrowdOf) → tally same_crowd sums.new q ≡ (if same_crowd crowd q then capped (tally same_crowd sums.old crowd + size) else tally same_crowd sums.old q)) }
{
    let sum = sums.get(&crowd).copied().unwrap_or(0).saturating_add(size);
    sums.insert(crowd, sum)?;
    Ok(sum)
}
