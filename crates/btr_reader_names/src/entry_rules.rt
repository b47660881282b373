ghost use Rattle.std.specs.Prelude.{◌≡◌, ◌==◌, ◌||◌, nat_eq, Contains, IfOk, IfErr};
ghost use Rattle.std.specs.List.{list_any};
ghost use Rattle.indexmap.specs.IndexSet.{contains};
ghost use Rattle.fs_paths.specs.Links.{same_node};
ghost use Rattle.btr_reader_names.specs.declared.dir_index.DirIndex.{DirIndex as DirIndexOf};
ghost use Rattle.btr_reader_names.specs.Links.{is_name};
ghost use Rattle.btr_reader_names.specs.Passes.{inode_rule, tree_rule, target_rule, entry_rule, IsGoodEntry, BlamesEntry};
ghost use Rattle.btr_reader_names.specs.Steps.{is_open};

use crate::inode_rules::bad;
use crate::links::{is_followed, is_open, names_inode, names_tree};
use crate::{DirIndex, NameTable};
use btr_reader_walk::btrfs_format::object::FIRST_FREE_OBJECTID;
use btr_reader_walk::{BtrRefusal, BtrRule};
use fs_paths::NodeId;
use indexmap::IndexSet;

/// Whether each entry of a named directory is in order by itself.
pub fn check_entries(
    names: &NameTable,
    named: &IndexSet<NodeId>,
    roots: &IndexSet<u64>,
) -> Result<(), BtrRefusal>
    ensures good { IfOk result (λ _. (n : DirIndexOf) → Contains names.now.namings.items n → IsGoodEntry names.now (is_open names.now (contains same_node named.now)) (contains nat_eq roots.now) n) }
    ensures blamed { IfErr result (λ r. (n : DirIndexOf) × Contains names.now.namings.items n × BlamesEntry names.now (is_open names.now (contains same_node named.now)) (contains nat_eq roots.now) n r) }
{
    for naming in &names.namings {
        check_entry(names, named, roots, naming)?;
    }
    Ok(())
}

/// The same of one entry.
fn check_entry(
    names: &NameTable,
    named: &IndexSet<NodeId>,
    roots: &IndexSet<u64>,
    naming: &DirIndex,
) -> Result<(), BtrRefusal>
    ensures good { IfOk result (λ _. IsGoodEntry names.now (is_open names.now (contains same_node named.now)) (contains nat_eq roots.now) naming.now) }
    ensures blamed { IfErr result (BlamesEntry names.now (is_open names.now (contains same_node named.now)) (contains nat_eq roots.now) naming.now) }
{
    if !is_open(names, named, naming.dir) {
        return Ok(());
    }
    match entry_rule(names, roots, naming) {
        Some(rule) => Err(bad(naming.leaf, rule)),
        None => Ok(()),
    }
}

/// The rule that an entry of a named directory breaks, if it breaks one.
fn entry_rule(names: &NameTable, roots: &IndexSet<u64>, naming: &DirIndex) -> Option<BtrRule>
    ensures { result ≡ entry_rule names.now (contains nat_eq roots.now) naming.now }
{
    if !is_name(naming.name.bytes()) {
        return Some(BtrRule::NameForm);
    }
    if !is_followed(naming) {
        return None;
    }
    target_rule(names, roots, naming)
}

/// The same of what an entry names.
fn target_rule(names: &NameTable, roots: &IndexSet<u64>, naming: &DirIndex) -> Option<BtrRule>
    ensures { result ≡ target_rule names.now (contains nat_eq roots.now) naming.now }
{
    if names_inode(naming) {
        return inode_rule(names, naming.location.objectid);
    }
    if names_tree(naming) {
        return tree_rule(roots, naming.location.objectid);
    }
    Some(BtrRule::Body)
}

fn inode_rule(names: &NameTable, ino: u64) -> Option<BtrRule>
    ensures { result ≡ inode_rule names.now ino }
{
    if names.found(ino).is_none() {
        return Some(BtrRule::NoInode);
    }
    if ino == FIRST_FREE_OBJECTID {
        return Some(BtrRule::DirTwice);
    }
    None
}

fn tree_rule(roots: &IndexSet<u64>, number: u64) -> Option<BtrRule>
    ensures { result ≡ tree_rule (contains nat_eq roots.now) number }
{
    if roots.contains(&number) {
        None
    } else {
        Some(BtrRule::NoInode)
    }
}

/// Whether a name is not empty, has no slash and no zero byte, and is neither `.` nor `..`.
pub fn is_name(name: &[u8]) -> bool
    ensures { result ≡ is_name name.now }
{
    !name.is_empty() && !has_separator(name) && name != b".".as_slice() && name != b"..".as_slice()
}

fn has_separator(name: &[u8]) -> bool
    ensures { result ≡ list_any (λ b. (b == 47) || (b == 0)) name.now }
{
    name.iter().any(|b| *b == b'/' || *b == 0)
}
