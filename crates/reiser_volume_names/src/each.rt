ghost use Rattle.std.specs.Prelude.{IfErr, ◌≡◌, ◌≤◌, true, List};
ghost use Rattle.std.specs.Result.{MatchResult};
ghost use Rattle.indexmap.specs.IndexSet.{contains, IsUnique};
ghost use Rattle.reiser_volume_objects.specs.reiser_walk.Items.{ReiserItem};
ghost use Rattle.reiser_volume_objects.specs.declared.key.ObjectKey.{ObjectKey as KeyOf};
ghost use Rattle.reiser_volume_objects.specs.Keys.{same_key};
ghost use Rattle.reiser_volume_objects.specs.Table.{HasNoted};
ghost use Rattle.reiser_volume_names.specs.Passes.{HasForms, BlamesObject, BlamesTarget, is_symlink_mode};
ghost use Rattle.reiser_volume_names.specs.Refuses.{IsRefusalOfNames};

use indexmap::IndexSet;
use reiser_volume_objects::{ObjectKey, ObjectStat, Objects, Rule, VolumeRefusal};

/// Whether the directory items of each named object are on the grammar of entries, and the target of each symlink fits
/// into one item of Btrfs.
pub fn check_each(objects: &Objects, named: &IndexSet<ObjectKey>) -> Result<(), VolumeRefusal>
    ensures once { IsUnique same_key named.now }
    ensures checked { (items : List ReiserItem) → HasNoted objects.now items
        → MatchResult result (λ _. (key : KeyOf) → contains same_key named.now key ≡ true → HasForms items key) (λ r. (key : KeyOf) × (contains same_key named.now key ≡ true) × BlamesObject items key r) }
    ensures answers { IfErr result IsRefusalOfNames }
{
    for key in named.as_slice() {
        check_object(objects, *key)?;
    }
    Ok(())
}

/// The same of one object.
fn check_object(objects: &Objects, key: ObjectKey) -> Result<(), VolumeRefusal>
    ensures checked { (items : List ReiserItem) → HasNoted objects.now items → MatchResult result (λ _. HasForms items key) (BlamesObject items key) }
    ensures answers { IfErr result IsRefusalOfNames }
{
    let object = objects.object_or_new(key);
    match object.off_form {
        Some(block) => Err(VolumeRefusal::Damaged {
            block,
            rule: Rule::EntryForm,
        }),
        None => match object.stat {
            Some(stat) => check_target(key, &stat),
            None => Ok(()),
        },
    }
}

/// Whether the target of a symlink with this stat data is short.
fn check_target(key: ObjectKey, stat: &ObjectStat) -> Result<(), VolumeRefusal>
    ensures checked { MatchResult result (λ _. is_symlink_mode stat.now.fields.mode ≡ true → stat.now.fields.size ≤ 3900) (BlamesTarget key stat.now) }
    ensures answers { IfErr result IsRefusalOfNames }
{
    if stat.fields.mode / 4096 == 10 && stat.fields.size > 3900 {
        return Err(VolumeRefusal::NameTooLong {
            dir: key.dir,
            object: key.object,
            length: stat.fields.size,
        });
    }
    Ok(())
}
