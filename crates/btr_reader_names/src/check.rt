ghost use Rattle.std.specs.Prelude.{◌≡◌, List, nat_eq, IfOk, IfErr, OnOk};
ghost use Rattle.std.specs.Result.{MatchResult};
ghost use Rattle.indexmap.specs.IndexSet.{contains};
ghost use Rattle.btr_reader_walk.specs.Events.{TreeItem};
ghost use Rattle.fs_paths.specs.Links.{same_node};
ghost use Rattle.btr_reader_names.specs.Passes.{AreGood, BlamesOne};
ghost use Rattle.btr_reader_names.specs.Refuses.{RefusesNames, IsNoFault};
ghost use Rattle.btr_reader_names.specs.Rules.{KeepsNames};
ghost use Rattle.btr_reader_names.specs.Steps.{AreNamed, links_of};
ghost use Rattle.btr_reader_names.specs.Table.{HasNotedNames};
ghost use Rattle.btr_reader_names.specs.TreeLinks.{AreTreeLinks};

use crate::NameTable;
use crate::entry_rules::check_entries;
use crate::inode_rules::{check_forms, check_inodes, check_root};
use crate::links::inode_node;
use crate::seen::{check_directories, check_once};
use btr_reader_walk::btrfs_format::object::FIRST_FREE_OBJECTID;
use btr_reader_walk::{BtrAnswer, BtrRefusal, Memory};
use fs_paths::{NodeId, reached};
use indexmap::IndexSet;
use std::alloc::Global;

impl NameTable {
    /// The named inodes, where all the rules of names are kept. `root` is the address of the tree's root node, and `roots`
    /// has the numbers of the trees that have a root item.
    ///
    /// The root directory is there; each inode that it reaches by names has an item on its grammar, a known kind, and as a
    /// symlink a target of at most 4095 bytes; each entry of a named directory is on its grammar, with a name that a
    /// directory may have, once, and names an inode or a tree that is there; and no directory is named twice, nor the root.
    /// What no name reaches is not looked at.
    pub fn check(
        &self,
        alloc: Global,
        root: u64,
        roots: &IndexSet<u64>,
    ) -> Result<IndexSet<NodeId>, BtrAnswer>
        ensures named { (items : List TreeItem) → HasNotedNames self.now items → IfOk result (λ named. AreNamed items (contains same_node named)) }
        ensures kept { (items : List TreeItem) → HasNotedNames self.now items → OnOk result (KeepsNames (contains nat_eq roots.now) items root) }
        ensures links { (items : List TreeItem) → HasNotedNames self.now items → IfOk result (λ named. AreTreeLinks items (links_of self.now (contains same_node named))) }
        ensures refused { (items : List TreeItem) → HasNotedNames self.now items → IfErr result (RefusesNames (contains nat_eq roots.now) items root) }
        ensures cause { IfErr result IsNoFault }
    {
        let named = reach(self, alloc)?;
        check_all(alloc, self, root, roots, &named)?;
        Ok(named)
    }
}

/// The inodes that the root directory reaches by names.
fn reach(names: &NameTable, alloc: Global) -> Result<IndexSet<NodeId>, Memory>
    ensures { (items : List TreeItem) → HasNotedNames names.now items → IfOk result (λ named. AreNamed items (contains same_node named)) }
{
    let steps = names.steps(alloc)?;
    let named = reached(alloc, steps, inode_node(FIRST_FREE_OBJECTID))?;
    Ok(named)
}

/// Whether all the rules of names are kept, for these named inodes.
fn check_all(
    alloc: Global,
    names: &NameTable,
    root: u64,
    roots: &IndexSet<u64>,
    named: &IndexSet<NodeId>,
) -> Result<(), BtrAnswer>
    ensures cause { IfErr result IsNoFault }
    ensures all { (items : List TreeItem) → HasNotedNames names.now items → AreNamed items (contains same_node named.now)
        → MatchResult result (λ _. KeepsNames (contains nat_eq roots.now) items root × AreTreeLinks items (links_of names.now (contains same_node named.now))) (RefusesNames (contains nat_eq roots.now) items root) }
{
    check_each(names, root, roots, named)?;
    check_once(alloc, names, named)?;
    check_directories(alloc, names, named)?;
    Ok(())
}

/// Whether the root, each named inode, and each index and entry is in order by itself.
fn check_each(
    names: &NameTable,
    root: u64,
    roots: &IndexSet<u64>,
    named: &IndexSet<NodeId>,
) -> Result<(), BtrRefusal>
    ensures good { OnOk result (AreGood names.now (contains same_node named.now) (contains nat_eq roots.now) named.now.keys) }
    ensures blamed { IfErr result (BlamesOne names.now (contains same_node named.now) (contains nat_eq roots.now) named.now.keys root) }
{
    check_root(names, root)?;
    check_inodes(names, named)?;
    check_forms(names, named)?;
    check_entries(names, named, roots)?;
    Ok(())
}
