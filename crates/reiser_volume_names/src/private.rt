ghost use Rattle.std.specs.Prelude.{◌≡◌, ◌++◌, ◌∷◌, [], true, false, List, Option, IsTrue, IfOk, IfErr, filter, Contains, if◌then◌else◌};
ghost use Rattle.std.specs.Result.{MatchResult};
ghost use Rattle.indexmap.specs.IndexSet.{contains};
ghost use Rattle.reiser_volume_objects.specs.reiser_walk.Items.{ReiserItem};
ghost use Rattle.reiser_volume_objects.specs.declared.key.ObjectKey.{ObjectKey as KeyOf};
ghost use Rattle.reiser_volume_objects.specs.declared.naming.Naming.{Naming as NamingOf};
ghost use Rattle.reiser_volume_objects.specs.Keys.{same_key};
ghost use Rattle.reiser_volume_objects.specs.Names.{is_followed};
ghost use Rattle.reiser_volume_objects.specs.Table.{HasNoted};
ghost use Rattle.reiser_volume_names.specs.Private.{HasReadableEntries, IsOnly, IsExtra, AreTargets, BlamesTargets, BlamesBelow, BlamesPrivate, HoldsNoAttribute, HasNoAttributes};
ghost use Rattle.reiser_volume_names.specs.Refuses.{IsNamesAnswer};

use crate::again::add;
use indexmap::IndexSet;
use reiser_volume_objects::{Naming, ObjectKey, Objects, VolAnswer, VolumeRefusal, is_followed};
use std::alloc::Global;

/// The one entry that the private directory may have.
const XATTRS: &[u8; 6] = b"xattrs";

/// Whether the private directory of the root, if there is one, holds no attribute.
pub fn check_private(alloc: Global, objects: &Objects) -> Result<(), VolAnswer>
    ensures checked { (items : List ReiserItem) → HasNoted objects.now items → MatchResult result (λ _. (n : NamingOf) → Contains objects.now.namings.items n → is_followed n ≡ false → HasNoAttributes items n.target) (BlamesPrivate items objects.now.namings.items) }
    ensures answers { IfErr result IsNamesAnswer }
{
    for naming in &objects.namings {
        check_entry(alloc, objects, naming)?;
    }
    Ok(())
}

/// The same of what one entry names, if it is that of the private directory.
fn check_entry(alloc: Global, objects: &Objects, naming: &Naming) -> Result<(), VolAnswer>
    ensures checked { (items : List ReiserItem) → HasNoted objects.now items → MatchResult result (λ _. is_followed naming.now ≡ false → HasNoAttributes items naming.now.target)
        (λ e. (is_followed naming.now ≡ false) × BlamesBelow items (HasNoAttributes items naming.now.target) naming.now.target e) }
    ensures answers { IfErr result IsNamesAnswer }
{
    if is_followed(naming) {
        return Ok(());
    }
    check_directory(alloc, objects, naming.target)
}

/// Whether the private directory is empty, or has one entry, `xattrs`, that holds no attribute.
fn check_directory(alloc: Global, objects: &Objects, dir: ObjectKey) -> Result<(), VolAnswer>
    ensures checked { (items : List ReiserItem) → HasNoted objects.now items → MatchResult result (λ _. HasNoAttributes items dir) (BlamesBelow items (HasNoAttributes items dir) dir) }
    ensures answers { IfErr result IsNamesAnswer }
{
    if !is_readable(objects, dir) {
        return Err(attributes(dir));
    }
    match only_entry(objects, dir) {
        Err(key) => Err(attributes(key)),
        Ok(only) => check_only(alloc, objects, dir, only),
    }
}

/// The same of a directory with this only entry, or none.
fn check_only(
    alloc: Global,
    objects: &Objects,
    dir: ObjectKey,
    only: Option<ObjectKey>,
) -> Result<(), VolAnswer>
    ensures checked { (items : List ReiserItem) → HasNoted objects.now items → HasReadableEntries items dir → IsOnly (filter (λ n. same_key n.dir dir) objects.now.namings.items) only
        → MatchResult result (λ _. HasNoAttributes items dir) (BlamesBelow items (HasNoAttributes items dir) dir) }
    ensures answers { IfErr result IsNamesAnswer }
{
    match only {
        None => Ok(()),
        Some(inner) => check_inner(alloc, objects, inner),
    }
}

/// Whether a directory holds only empty directories, as attributes leave them behind.
fn check_inner(alloc: Global, objects: &Objects, dir: ObjectKey) -> Result<(), VolAnswer>
    ensures checked { (items : List ReiserItem) → HasNoted objects.now items → MatchResult result (λ _. HoldsNoAttribute items dir) (BlamesBelow items (HoldsNoAttribute items dir) dir) }
    ensures answers { IfErr result IsNamesAnswer }
{
    if !is_readable(objects, dir) {
        return Err(attributes(dir));
    }
    let inside = targets(alloc, objects, dir)?;
    check_empty(objects, &inside)
}

/// What the entries of a directory name, where all of it are directories that can be read.
fn targets(
    alloc: Global,
    objects: &Objects,
    dir: ObjectKey,
) -> Result<IndexSet<ObjectKey>, VolAnswer>
    ensures checked { (items : List ReiserItem) → HasNoted objects.now items → let ns = filter (λ n. same_key n.dir dir) objects.now.namings.items in
        MatchResult result (λ inside. AreTargets items ns (contains same_key inside)) (BlamesTargets items ns) }
    ensures answers { IfErr result IsNamesAnswer }
{
    let mut inside = IndexSet::new(alloc);
    for naming in &objects.namings {
        add_target(&mut inside, objects, dir, naming)?;
    }
    Ok(inside)
}

/// The same with one more entry.
fn add_target(
    inside: &mut IndexSet<ObjectKey>,
    objects: &Objects,
    dir: ObjectKey,
    naming: &Naming,
) -> Result<(), VolAnswer>
    ensures checked { (items : List ReiserItem) (ns : List NamingOf) → HasNoted objects.now items → AreTargets items ns (contains same_key inside.old)
        → let more = if same_key naming.now.dir dir then naming.now ∷ [] else [] in
        MatchResult result (λ _. AreTargets items (ns ++ more) (contains same_key inside.new)) (BlamesTargets items (ns ++ more)) }
    ensures answers { IfErr result IsNamesAnswer }
{
    if naming.dir != dir {
        return Ok(());
    }
    if !is_readable(objects, naming.target) {
        return Err(attributes(naming.target));
    }
    add(inside, naming.target)?;
    Ok(())
}

/// Whether none of these directories has an entry.
fn check_empty(objects: &Objects, inside: &IndexSet<ObjectKey>) -> Result<(), VolAnswer>
    ensures checked { MatchResult result (λ _. (n : NamingOf) → Contains objects.now.namings.items n → contains same_key inside.now n.dir ≡ false)
        (λ e. (n : NamingOf) × Contains objects.now.namings.items n × (contains same_key inside.now n.dir ≡ true) × (e ≡ VolAnswer.Refused (VolumeRefusal.HasAttributes n.target.dir n.target.object))) }
    ensures answers { IfErr result IsNamesAnswer }
{
    for naming in &objects.namings {
        if inside.contains(&naming.dir) {
            return Err(attributes(naming.target));
        }
    }
    Ok(())
}

/// The refusal with an object of the private directory.
fn attributes(key: ObjectKey) -> VolAnswer
    ensures { result ≡ VolAnswer.Refused (VolumeRefusal.HasAttributes key.dir key.object) }
{
    VolAnswer::Refused(VolumeRefusal::HasAttributes {
        dir: key.dir,
        object: key.object,
    })
}

/// Whether an object is a directory whose items are on the grammar of entries.
fn is_readable(objects: &Objects, key: ObjectKey) -> bool
    ensures yes { (items : List ReiserItem) → HasNoted objects.now items → IsTrue result → HasReadableEntries items key }
    ensures no { (items : List ReiserItem) → HasNoted objects.now items → result ≡ false → ¬ HasReadableEntries items key }
{
    objects.is_directory(key) && objects.object_or_new(key).off_form.is_none()
}

/// The object that the only entry of the private directory names, if there is one; an error names the object of an entry
/// that may not be there.
fn only_entry(objects: &Objects, dir: ObjectKey) -> Result<Option<ObjectKey>, ObjectKey>
    ensures { MatchResult result (IsOnly (filter (λ n. same_key n.dir dir) objects.now.namings.items)) (IsExtra (filter (λ n. same_key n.dir dir) objects.now.namings.items)) }
{
    let mut only = None;
    for naming in &objects.namings {
        only = next_entry(dir, only, naming)?;
    }
    Ok(only)
}

/// The same with one more entry.
fn next_entry(
    dir: ObjectKey,
    only: Option<ObjectKey>,
    naming: &Naming,
) -> Result<Option<ObjectKey>, ObjectKey>
    ensures { (listing : List NamingOf) → IsOnly listing only → let more = if same_key naming.now.dir dir then naming.now ∷ [] else [] in
        MatchResult result (IsOnly (listing ++ more)) (IsExtra (listing ++ more)) }
{
    if naming.dir != dir {
        return Ok(only);
    }
    if only.is_some() || naming.name.bytes() != XATTRS.as_slice() {
        return Err(naming.target);
    }
    Ok(Some(naming.target))
}
