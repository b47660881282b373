ghost use Rattle.std.specs.Prelude.{◌≡◌, ◌++◌, ◌∷◌, [], if◌then◌else◌, map, filter, IfOk, OnOk};
ghost use Rattle.indexmap.specs.IndexSet.{contains};
ghost use Rattle.fs_paths.specs.Links.{same_node};
ghost use Rattle.btr_reader_names.specs.Links.{is_followed, names_inode, names_tree, is_saved_name};
ghost use Rattle.btr_reader_names.specs.Steps.{inode_node, target_node, is_step, step_of, is_open, is_link, link_of, links_of};

use crate::{DirIndex, NameTable};
use btr_reader_walk::Memory;
use btr_reader_walk::btrfs_format::key::{INODE_ITEM, ROOT_ITEM};
use btr_reader_walk::btrfs_format::object::FIRST_FREE_OBJECTID;
use fs_paths::fs_rows::Name;
use fs_paths::{NodeId, NodeLink};
use indexmap::IndexSet;
use std::alloc::Global;

/// The name under which the root directory has the saved image's tree.
const SAVED: &[u8; 14] = b"reiserfs_saved";

/// An inode as an object of the tree.
pub fn inode_node(ino: u64) -> NodeId
    ensures { result ≡ inode_node ino }
{
    NodeId {
        space: 0,
        number: ino,
    }
}

/// What an entry names, as an object of the tree.
fn target_node(naming: &DirIndex) -> NodeId
    ensures { result ≡ target_node naming.now }
{
    if names_inode(naming) {
        inode_node(naming.location.objectid)
    } else {
        NodeId {
            space: 1,
            number: naming.location.objectid,
        }
    }
}

/// Whether an entry is one of the tree: that of the saved image is no part of it.
pub fn is_followed(naming: &DirIndex) -> bool
    ensures { result ≡ is_followed naming.now }
{
    !(naming.dir == FIRST_FREE_OBJECTID && is_saved_name(naming.name.bytes()))
}

fn is_saved_name(name: &[u8]) -> bool
    ensures { result ≡ is_saved_name name.now }
{
    name == SAVED.as_slice()
}

/// Whether an entry names an inode.
pub fn names_inode(naming: &DirIndex) -> bool
    ensures { result ≡ names_inode naming.now }
{
    naming.location.kind == INODE_ITEM
}

/// Whether an entry names another tree.
pub fn names_tree(naming: &DirIndex) -> bool
    ensures { result ≡ names_tree naming.now }
{
    naming.location.kind == ROOT_ITEM
}

/// Whether an inode is a named directory.
pub fn is_open(names: &NameTable, named: &IndexSet<NodeId>, dir: u64) -> bool
    ensures { result ≡ is_open names.now (contains same_node named.now) dir }
{
    named.contains(&inode_node(dir)) && names.is_directory(dir)
}

/// Whether an entry is followed, and its directory named.
pub fn is_link(names: &NameTable, named: &IndexSet<NodeId>, naming: &DirIndex) -> bool
    ensures { result ≡ is_link names.now (contains same_node named.now) naming.now }
{
    is_followed(naming) && is_open(names, named, naming.dir)
}

impl NameTable {
    /// The links of the tree, of which [`fs_paths::paths`] makes the paths from [`inode_node`] of 256 on. `named` are the
    /// inodes that [`NameTable::check`] gave.
    pub fn links(&self, alloc: Global, named: &IndexSet<NodeId>) -> Result<Vec<NodeLink>, Memory>
        ensures { IfOk result (λ links. links.items ≡ links_of self.now (contains same_node named.now)) }
    {
        let mut links = Vec::new(alloc);
        for naming in &self.namings {
            add_link(&mut links, self, named, naming)?;
        }
        Ok(links)
    }

    /// The entries that lead from a directory to an inode, as links without names.
    pub fn steps(&self, alloc: Global) -> Result<Vec<NodeLink>, Memory>
        ensures { IfOk result (λ steps. steps.items ≡ map step_of (filter (is_step self.now) self.now.namings.items)) }
    {
        let mut steps = Vec::new(alloc);
        for naming in &self.namings {
            add_step(&mut steps, alloc, self, naming)?;
        }
        Ok(steps)
    }
}

fn add_link(
    links: &mut Vec<NodeLink>,
    names: &NameTable,
    named: &IndexSet<NodeId>,
    naming: &DirIndex,
) -> Result<(), Memory>
    ensures { OnOk result (links.new.items ≡ links.old.items ++ (if is_link names.now (contains same_node named.now) naming.now then link_of naming.now ∷ [] else [])) }
{
    if !is_link(names, named, naming) {
        return Ok(());
    }
    links.push(NodeLink {
        dir: inode_node(naming.dir),
        target: target_node(naming),
        name: naming.name.clone()?,
    })?;
    Ok(())
}

fn is_step(names: &NameTable, naming: &DirIndex) -> bool
    ensures { result ≡ is_step names.now naming.now }
{
    is_followed(naming) && names_inode(naming) && names.is_directory(naming.dir)
}

fn add_step(
    steps: &mut Vec<NodeLink>,
    alloc: Global,
    names: &NameTable,
    naming: &DirIndex,
) -> Result<(), Memory>
    ensures { OnOk result (steps.new.items ≡ steps.old.items ++ (if is_step names.now naming.now then step_of naming.now ∷ [] else [])) }
{
    if !is_step(names, naming) {
        return Ok(());
    }
    steps.push(NodeLink {
        dir: inode_node(naming.dir),
        target: inode_node(naming.location.objectid),
        name: Name::new(alloc, &[])?,
    })?;
    Ok(())
}
