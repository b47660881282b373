ghost use Rattle.std.specs.Prelude.{◌≡◌, ◌≤◌, true, false, Contains, IfOk, IfErr};
ghost use Rattle.std.specs.List.{All};
ghost use Rattle.indexmap.specs.IndexSet.{contains};
ghost use Rattle.fs_paths.specs.Links.{same_node};
ghost use Rattle.fs_paths.specs.declared.node.NodeId.{NodeId as NodeOf};
ghost use Rattle.btr_reader_names.specs.declared.dir_index.OffForm.{OffForm as OffFormOf};
ghost use Rattle.btr_reader_names.specs.Passes.{BlamesRoot, fits_size, is_good, is_good_item, IsGoodNode, BlamesNode, BlamesForm};
ghost use Rattle.btr_reader_names.specs.Steps.{is_open};
ghost use Rattle.btr_reader_names.specs.Table.{is_dir};

use crate::NameTable;
use crate::dir_index::OffForm;
use crate::inodes::{InodeFound, kind_of_mode};
use crate::links::is_open;
use crate::table::kind_found;
use btr_reader_walk::btrfs_format::object::FIRST_FREE_OBJECTID;
use btr_reader_walk::{BtrRefusal, BtrRule, Inode};
use fs_paths::NodeId;
use fs_paths::fs_rows::Kind;
use indexmap::IndexSet;

/// The longest target of a symlink, in bytes: Linux's PATH_MAX without the zero behind it.
const LONGEST_TARGET: u64 = 4095;

pub fn bad(address: u64, rule: BtrRule) -> BtrRefusal
    ensures { result ≡ BtrRefusal.BadBtrfs address rule }
{
    BtrRefusal::BadBtrfs { address, rule }
}

/// Whether the root directory is there, and one. `root` is the address of the tree's root node.
pub fn check_root(names: &NameTable, root: u64) -> Result<(), BtrRefusal>
    ensures good { IfOk result (λ _. is_dir names.now FIRST_FREE_OBJECTID ≡ true) }
    ensures blamed { IfErr result (BlamesRoot names.now root) }
{
    let found = match names.found(FIRST_FREE_OBJECTID) {
        Some(found) => found,
        None => return Err(bad(root, BtrRule::NoInode)),
    };
    match kind_found(&found) {
        None => Err(bad(found.leaf, BtrRule::Body)),
        Some(kind) => {
            if kind.is_directory() {
                Ok(())
            } else {
                Err(bad(root, BtrRule::NoInode))
            }
        }
    }
}

/// Whether the item of each named inode is in order.
pub fn check_inodes(names: &NameTable, named: &IndexSet<NodeId>) -> Result<(), BtrRefusal>
    ensures good { IfOk result (λ _. (node : NodeOf) → Contains named.now.keys node → IsGoodNode names.now node) }
    ensures blamed { IfErr result (λ r. (node : NodeOf) × Contains named.now.keys node × BlamesNode names.now node r) }
{
    for node in named.as_slice() {
        check_inode(names, *node)?;
    }
    Ok(())
}

/// The same of one inode. One without an item is blamed on the entry that names it.
fn check_inode(names: &NameTable, node: NodeId) -> Result<(), BtrRefusal>
    ensures good { IfOk result (λ _. IsGoodNode names.now node) }
    ensures blamed { IfErr result (BlamesNode names.now node) }
{
    match names.found(node.number) {
        Some(found) => check_item(&found),
        None => Ok(()),
    }
}

fn check_item(found: &InodeFound) -> Result<(), BtrRefusal>
    ensures good { IfOk result (λ _. is_good_item found.now ≡ true) }
    ensures bad { IfErr result (λ _. is_good_item found.now ≡ false) }
    ensures blamed { IfErr result (λ r. r ≡ BtrRefusal.BadBtrfs found.now.leaf BtrRule.Body) }
{
    if is_good_item(found) {
        Ok(())
    } else {
        Err(bad(found.leaf, BtrRule::Body))
    }
}

/// Whether an inode is on its grammar and of a known kind, and no symlink with too long a target.
fn is_good_item(found: &InodeFound) -> bool
    ensures { result ≡ is_good_item found.now }
{
    match &found.inode {
        Some(inode) => is_good(inode),
        None => false,
    }
}

fn is_good(inode: &Inode) -> bool
    ensures { result ≡ is_good inode.now }
{
    match kind_of_mode(inode.mode) {
        Some(kind) => fits_size(inode.size, kind),
        None => false,
    }
}

fn fits_size(size: u64, kind: Kind) -> bool
    ensures { result ≡ fits_size size kind }
{
    !(kind.is_symlink() && size > LONGEST_TARGET)
}

/// Whether each directory index of a named directory is on its grammar.
pub fn check_forms(names: &NameTable, named: &IndexSet<NodeId>) -> Result<(), BtrRefusal>
    ensures good { IfOk result (λ _. (off : OffFormOf) → Contains names.now.off_form.items off → is_open names.now (contains same_node named.now) off.dir ≡ false) }
    ensures blamed { IfErr result (λ r. (off : OffFormOf) × Contains names.now.off_form.items off × BlamesForm (is_open names.now (contains same_node named.now)) off r) }
{
    for off in &names.off_form {
        check_form(names, named, off)?;
    }
    Ok(())
}

fn check_form(names: &NameTable, named: &IndexSet<NodeId>, off: &OffForm) -> Result<(), BtrRefusal>
    ensures good { IfOk result (λ _. is_open names.now (contains same_node named.now) off.now.dir ≡ false) }
    ensures blamed { IfErr result (BlamesForm (is_open names.now (contains same_node named.now)) off.now) }
{
    if is_open(names, named, off.dir) {
        Err(bad(off.leaf, BtrRule::Body))
    } else {
        Ok(())
    }
}
