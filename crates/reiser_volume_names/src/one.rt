ghost use Rattle.std.specs.Prelude.{◌≡◌, ◌==◌, IfErr, IfOk, Contains};
ghost use Rattle.std.specs.List.{list_any};
ghost use Rattle.reiser_volume_objects.specs.declared.naming.Naming.{Naming as NamingOf};
ghost use Rattle.indexmap.specs.IndexSet.{contains};
ghost use Rattle.reiser_volume_objects.specs.Keys.{same_key};
ghost use Rattle.reiser_volume_names.specs.Names.{is_name};
ghost use Rattle.reiser_volume_names.specs.Passes.{IsGoodName, IsGoodLink, BlamesName, BlamesLink};

use indexmap::IndexSet;
use reiser_volume_objects::{Naming, ObjectKey, Objects, ROOT, Rule, VolumeRefusal, is_followed};

/// The root's entry that the converted volume keeps for itself.
pub const SAVED: &[u8; 14] = b"reiserfs_saved";

/// Whether each name in a named directory is one that a directory may have, by itself.
pub fn check_names(objects: &Objects, named: &IndexSet<ObjectKey>) -> Result<(), VolumeRefusal>
    ensures good { IfOk result (λ _. (n : NamingOf) → Contains objects.now.namings.items n → IsGoodName (contains same_key named.now) n) }
    ensures blamed { IfErr result (λ r. (n : NamingOf) × Contains objects.now.namings.items n × BlamesName (contains same_key named.now) n r) }
{
    for naming in &objects.namings {
        check_name(named, naming)?;
    }
    Ok(())
}

/// Whether a name is one that a directory may have, if its directory is named.
fn check_name(named: &IndexSet<ObjectKey>, naming: &Naming) -> Result<(), VolumeRefusal>
    ensures good { IfOk result (λ _. IsGoodName (contains same_key named.now) naming.now) }
    ensures blamed { IfErr result (BlamesName (contains same_key named.now) naming.now) }
{
    if !named.contains(&naming.dir) {
        return Ok(());
    }
    if !is_name(naming.name.bytes()) {
        return Err(VolumeRefusal::Damaged {
            block: naming.leaf,
            rule: Rule::EntryForm,
        });
    }
    if !is_followed(naming) {
        return Ok(());
    }
    check_link(naming)
}

/// Whether the name of a link is short, names an object below the root, and is not the one that is kept.
fn check_link(naming: &Naming) -> Result<(), VolumeRefusal>
    ensures good { IfOk result (λ _. IsGoodLink naming.now) }
    ensures blamed { IfErr result (BlamesLink naming.now) }
{
    let ObjectKey { dir, object } = naming.target;
    let name = naming.name.bytes();
    if name.len() > 255 {
        return Err(VolumeRefusal::NameTooLong {
            dir,
            object,
            length: name.len() as u64,
        });
    }
    if naming.target == ROOT {
        return Err(VolumeRefusal::Damaged {
            block: naming.leaf,
            rule: Rule::DirTwice,
        });
    }
    if naming.dir == ROOT && name == SAVED.as_slice() {
        return Err(VolumeRefusal::NameTaken { dir, object });
    }
    Ok(())
}

/// Whether a name is not empty, has no slash, and is neither `.` nor `..`.
fn is_name(name: &[u8]) -> bool
    ensures { result ≡ is_name name.now }
{
    !name.is_empty() && !has_slash(name) && name != b".".as_slice() && name != b"..".as_slice()
}

fn has_slash(name: &[u8]) -> bool
    ensures { result ≡ list_any (λ b. b == 47) name.now }
{
    name.contains(&b'/')
}
