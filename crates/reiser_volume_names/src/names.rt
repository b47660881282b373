ghost use Rattle.std.specs.Prelude.{List, IfErr};
ghost use Rattle.std.specs.Result.{MatchResult};
ghost use Rattle.std.specs.List.Sorted.{IsStrictlySortedBy};
ghost use Rattle.indexmap.specs.IndexSet.{contains};
ghost use Rattle.reiser_volume_objects.specs.reiser_walk.Items.{ReiserItem};
ghost use Rattle.reiser_volume_objects.specs.Keys.{same_key};
ghost use Rattle.reiser_volume_objects.specs.Reach.{IsReach};
ghost use Rattle.reiser_volume_objects.specs.Table.{HasNoted};
ghost use Rattle.reiser_volume_names.specs.Links.{object_cmp};
ghost use Rattle.reiser_volume_names.specs.Names.{AreNames};
ghost use Rattle.reiser_volume_names.specs.Refuses.{RefusesNames, IsNamesAnswer};

use crate::again::check_directories;
use crate::counts::check_counts;
use crate::crowd::check_crowds;
use crate::each::check_each;
use crate::extended::check_extended;
use crate::once::check_once;
use crate::one::check_names;
use crate::private::check_private;
use indexmap::IndexSet;
use reiser_volume_objects::{ObjectKey, Objects, VolAnswer};
use std::alloc::Global;

/// Whether all the rules of names are kept, for objects that are in order and the keys of those that are named, sorted.
pub fn check_all_names(
    alloc: Global,
    objects: &Objects,
    named: &IndexSet<ObjectKey>,
) -> Result<(), VolAnswer>
    requires sorted { IsStrictlySortedBy object_cmp named.now.keys }
    ensures checked { (items : List ReiserItem) → HasNoted objects.now items → IsReach items (contains same_key named.now) → MatchResult result (λ _. AreNames items) (RefusesNames items) }
    ensures answers { IfErr result IsNamesAnswer }
{
    check_each(objects, named)?;
    check_names(objects, named)?;
    check_private(alloc, objects)?;
    check_once(alloc, objects, named)?;
    check_directories(alloc, objects, named)?;
    check_counts(alloc, objects, named)?;
    check_crowds(alloc, objects, named)?;
    check_extended(alloc, objects, named)
}
