ghost use Rattle.std.specs.Prelude.{◌≡◌, ℕ, true, List, Some, IfOk, IfErr};
ghost use Rattle.std.specs.Result.{MatchResult};
ghost use Rattle.indexmap.specs.IndexSet.{contains};
ghost use Rattle.reiser_walk.specs.Items.{ReiserItem};
ghost use Rattle.reiser_volume_objects.specs.declared.key.ObjectKey.{ObjectKey as KeyOf};
ghost use Rattle.reiser_volume_objects.specs.Items.{stat_of_object};
ghost use Rattle.reiser_volume_objects.specs.Keys.{same_key, items_of};
ghost use Rattle.reiser_volume_objects.specs.Kinds.{fits_size};
ghost use Rattle.reiser_volume_objects.specs.Names.{IsNamed};
ghost use Rattle.reiser_volume_objects.specs.Rules.{AreObjects, IsObject, IsKnownObject, IsObjectsRefusal};
ghost use Rattle.reiser_volume_objects.specs.Reach.{IsReach, IsSeen, AreSeen, Refuses, IsObjectsRule, IsObjectsAnswer};
ghost use Rattle.reiser_volume_objects.specs.Summary.{Summarises, fits_summary};
ghost use Rattle.reiser_volume_objects.specs.Table.{HasNoted};

use crate::kinds::kind_of_mode;
use crate::reach::reach;
use crate::{Object, ObjectKey, ObjectStat, Objects};
use fs_paths::fs_rows::Kind;
use indexmap::IndexSet;
use reiser_bitmap::{Rule, VolAnswer, VolumeRefusal};
use reiser_items::BlockNo;
use std::alloc::Global;

impl Objects {
    /// The keys of the named objects, where all the rules of objects are kept. `root_block` is the root of the tree.
    ///
    /// No file waits to be removed or cut short; the root is a directory; and each object that the root reaches by
    /// names has stat data of a known kind, only items of that kind, none of which hold the same byte, and a size in
    /// the kind's range. What no name reaches is not looked at.
    pub fn check(
        &self,
        alloc: Global,
        root_block: BlockNo,
    ) -> Result<IndexSet<ObjectKey>, VolAnswer>
        ensures sound { (items : List ReiserItem) → HasNoted self.now items → IfOk result (λ _. AreObjects items) }
        ensures named { (items : List ReiserItem) → HasNoted self.now items → IfOk result (λ named. IsReach items (contains same_key named)) }
        ensures refused { (items : List ReiserItem) → HasNoted self.now items → IfErr result (Refuses root_block items) }
        ensures answers { IfErr result IsObjectsAnswer }
    {
        match self.save_link {
            Some(object) => return Err(VolAnswer::Refused(VolumeRefusal::PendingLinks { object })),
            None => {}
        }
        let named = reach(alloc, self, root_block)?;
        check_named(self, &named)?;
        Ok(named)
    }
}

/// Whether each of the named objects is in order.
fn check_named(objects: &Objects, named: &IndexSet<ObjectKey>) -> Result<(), VolumeRefusal>
    ensures checked { (items : List ReiserItem) → HasNoted objects.now items → AreSeen items (contains same_key named.now)
        → MatchResult result (λ _. (key : KeyOf) → contains same_key named.now key ≡ true → IsObject items key) (λ r. (root_block : ℕ) → IsObjectsRefusal root_block items r) }
    ensures answers { IfErr result IsObjectsRule }
{
    for key in named.as_slice() {
        check_object(objects, *key)?;
    }
    Ok(())
}

/// Whether a named object is in order.
fn check_object(objects: &Objects, key: ObjectKey) -> Result<(), VolumeRefusal>
    ensures checked { (items : List ReiserItem) → HasNoted objects.now items → IsSeen items key
        → MatchResult result (λ _. IsObject items key) (λ r. (root_block : ℕ) → IsObjectsRefusal root_block items r) }
    ensures answers { IfErr result IsObjectsRule }
{
    let object = objects.object_or_new(key);
    match object.stat {
        // A named object without stat data was refused before.
        None => Ok(()),
        Some(stat) => check_stat(&object, &stat),
    }
}

/// Whether an object with this stat data is in order.
fn check_stat(object: &Object, stat: &ObjectStat) -> Result<(), VolumeRefusal>
    ensures checked { (items : List ReiserItem) (key : KeyOf) → IsNamed items key → stat_of_object items key ≡ Some stat.now → Summarises object.now (items_of key items)
        → MatchResult result (λ _. IsObject items key) (λ r. (root_block : ℕ) → IsObjectsRefusal root_block items r) }
    ensures answers { IfErr result IsObjectsRule }
{
    match kind_of_mode(stat.fields.mode) {
        None => Err(damaged(stat.leaf, Rule::ObjectForm)),
        Some(kind) => check_kind(object, stat, kind),
    }
}

/// Whether an object of this kind with this stat data is in order.
fn check_kind(object: &Object, stat: &ObjectStat, kind: Kind) -> Result<(), VolumeRefusal>
    ensures checked { (items : List ReiserItem) (key : KeyOf) → IsKnownObject items key stat.now kind → Summarises object.now (items_of key items)
        → MatchResult result (λ _. IsObject items key) (λ r. (root_block : ℕ) → IsObjectsRefusal root_block items r) }
    ensures answers { IfErr result IsObjectsRule }
{
    if !fits_kind(kind, object) {
        return Err(damaged(stat.leaf, Rule::ObjectForm));
    }
    if !fits_size(kind, stat.fields.size) {
        return Err(damaged(stat.leaf, Rule::SizeRange));
    }
    match object.overlap {
        Some(leaf) => Err(damaged(leaf, Rule::Overlap)),
        None => Ok(()),
    }
}

fn damaged(block: BlockNo, rule: Rule) -> VolumeRefusal
    ensures { result ≡ VolumeRefusal.Damaged block rule }
{
    VolumeRefusal::Damaged { block, rule }
}

/// Whether an object of this kind may have all its items.
fn fits_kind(kind: Kind, object: &Object) -> bool
    ensures { result ≡ fits_summary kind object.now }
{
    let is_file = matches!(kind, Kind::File);
    let may_have_bytes = is_file || matches!(kind, Kind::Symlink);
    let is_directory = matches!(kind, Kind::Directory);
    (!object.pointers || is_file)
        && (!object.bytes || may_have_bytes)
        && (!object.entries || is_directory)
}

/// Whether the size is in the range of the kind.
fn fits_size(kind: Kind, size: u64) -> bool
    ensures { result ≡ fits_size kind size }
{
    match kind {
        Kind::File => size <= 1 << 44,
        Kind::Symlink => size >= 1,
        Kind::Directory
        | Kind::Character
        | Kind::Block
        | Kind::Fifo
        | Kind::Socket
        | Kind::Subvolume => true,
    }
}
