ghost use Rattle.std.specs.Prelude.{◌≡◌, ◌∷◌, ◌++◌, [], List, map, slice_get, Some, IfOk, IfErr, OnOk};
ghost use Rattle.std.specs.Result.{MatchResult};
ghost use Rattle.std.specs.List.Sorted.{IsStrictlySortedBy};
ghost use Rattle.indexmap.specs.IndexMap.{keys, get, IsUnique};
ghost use Rattle.indexmap.specs.IndexSet.{contains};
ghost use Rattle.reiser_bitmap.specs.outside.History.{Image};
ghost use Rattle.reiser_volume_objects.specs.reiser_walk.Items.{ReiserItem};
ghost use Rattle.reiser_volume_objects.specs.declared.key.ObjectKey.{ObjectKey as KeyOf};
ghost use Rattle.reiser_volume_objects.specs.Keys.{same_key};
ghost use Rattle.reiser_volume_objects.specs.Table.{HasNoted};
ghost use Rattle.reiser_volume.specs.Answers.{IsVerdict, RefusesVolume};
ghost use Rattle.reiser_volume_names.specs.Known.{HasStats, is_known};
ghost use Rattle.reiser_volume_names.specs.Links.{object_cmp};
ghost use Rattle.reiser_volume.specs.Opened.{IsFoundSound, IsOpened};
ghost use Rattle.reiser_volume_names.specs.Passes.{link_list};
ghost use Rattle.reiser_volume.specs.Volume.{IsAccepted, volume_items};

use crate::Volume;
use crate::volume::is_link;
use indexmap::{IndexMap, IndexSet};
use reiser_bitmap::{Bitmap, Memory, VolAnswer};
use reiser_super::Super;
use reiser_volume_names::check_all_names;
use reiser_volume_objects::{ObjectKey, ObjectStat, Objects};
use std::alloc::Global;

/// The volume of these objects, where they and their names keep all rules.
pub fn gather(
    alloc: Global,
    sup: Super,
    bitmap: Bitmap,
    objects: Objects,
) -> Result<Volume, VolAnswer>
    ensures gathered { (image : Image) → IsFoundSound image sup bitmap → HasNoted objects (volume_items image)
        → MatchResult result (λ volume. IsAccepted image × IsOpened volume image) (RefusesVolume image) }
    ensures answers { IfErr result IsVerdict }
{
    let reached = objects.check(alloc, sup.root)?;
    let named = sorted(reached)?;
    check_all_names(alloc, &objects, &named)?;
    let table = table_of(alloc, &objects, &named)?;
    let links = link_places(alloc, &objects, &table)?;
    Ok(Volume {
        sup,
        bitmap,
        objects,
        named: table,
        links,
    })
}

/// The keys, ascending.
pub fn sorted(mut named: IndexSet<ObjectKey>) -> Result<IndexSet<ObjectKey>, Memory>
    ensures same { IfOk result (λ keys. (q : KeyOf) → contains same_key keys q ≡ contains same_key named q) }
    ensures ascends { IfOk result (λ keys. IsStrictlySortedBy object_cmp keys.keys) }
{
    named.sort()?;
    Ok(named)
}

/// The named objects with their stat data, ascending.
fn table_of(
    alloc: Global,
    objects: &Objects,
    named: &IndexSet<ObjectKey>,
) -> Result<IndexMap<ObjectKey, ObjectStat>, Memory>
    ensures stats { (items : List ReiserItem) → HasNoted objects.now items → IfOk result (λ table. HasStats items table named.now.keys) }
    ensures once { IfOk result (IsUnique same_key) }
    ensures ascends { IfOk result (λ table. IsStrictlySortedBy object_cmp (keys table)) }
{
    let mut table = IndexMap::new(alloc);
    for key in named.as_slice() {
        add_stat(&mut table, objects, *key)?;
    }
    sort(&mut table)?;
    Ok(table)
}

/// Adds an object with its stat data. A named object without stat data was refused before.
fn add_stat(
    table: &mut IndexMap<ObjectKey, ObjectStat>,
    objects: &Objects,
    key: ObjectKey,
) -> Result<(), Memory>
    ensures { (items : List ReiserItem) (seen : List KeyOf) → HasNoted objects.now items → HasStats items table.old seen → OnOk result (HasStats items table.new (seen ++ key ∷ [])) }
{
    match objects.stat(key) {
        Some(stat) => {
            table.insert(key, stat)?;
            Ok(())
        }
        None => Ok(()),
    }
}

fn sort(table: &mut IndexMap<ObjectKey, ObjectStat>) -> Result<(), Memory>
    ensures once { IsUnique same_key table.new }
    ensures same { (q : KeyOf) → get same_key table.new q ≡ get same_key table.old q }
    ensures ascends { OnOk result (IsStrictlySortedBy object_cmp (keys table.new)) }
{
    table.sort_keys()?;
    Ok(())
}

/// The places of the links among the entries.
fn link_places(
    alloc: Global,
    objects: &Objects,
    named: &IndexMap<ObjectKey, ObjectStat>,
) -> Result<Vec<usize>, Memory>
    ensures { IfOk result (λ places. map (slice_get objects.now.namings.items) places.items ≡ map (λ n. Some n) (link_list (is_known named.now) objects.now.namings.items)) }
{
    let mut places = Vec::new(alloc);
    for i in 0..objects.namings.len() {
        if is_link(named, &objects.namings[i]) {
            places.push(i)?;
        }
    }
    Ok(places)
}
