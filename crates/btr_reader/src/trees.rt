// The trees of an opened volume.
ghost use Rattle.std.specs.Prelude.{◌≡◌, [], Option, List, IfOk, IfErr, IfSome, IsSome, OnOk};
ghost use Rattle.std.specs.Option.{option_and_then};
ghost use Rattle.btr_reader_walk.specs.outside.Fault.{HasCauseOf};
ghost use Rattle.btr_reader_walk.specs.outside.History.{OverTold};
ghost use Rattle.btr_reader_walk.specs.Events.{TreeItem};
ghost use Rattle.btr_reader_walk.specs.Walks.{LieOn, found};
ghost use Rattle.btr_super.specs.Sums.{known_kind};
ghost use Rattle.btr_reader_names.specs.Refuses.{IsNoFault};
ghost use Rattle.btr_reader.specs.Image.{entry_refusals, tree_number};
ghost use Rattle.btr_reader.specs.Opening.{NamesNoLogTree, chunk_tree, form_of, root_tree};
ghost use Rattle.btr_reader.specs.Reading.{FindsSaved, FindsTree, IsWalkable};
ghost use Rattle.btr_reader.specs.Roots.{HasRoots, TellsRoot, root_item};

use crate::entries::find_entry;
use crate::image::NoNotes;
use crate::refusal::refused;
use crate::roots::RootFound;
use crate::volume::Btrfs;
use btr_reader_walk::{BlockSource, BtrAnswer, BtrRule, Form, Key, NodePointer, Notes, Tree};
use btr_space_items::btrfs_format::key::ROOT_ITEM;
use btr_space_items::btrfs_format::object::{CHUNK_TREE, ROOT_TREE};
use btr_super::{Super, sum_kind};
use std::alloc::Global;

/// What the nodes of a volume with this superblock share. The kind of checksum is known where the superblock was read.
fn form_of(sup: &Super) -> Form
    requires kind { IsSome (known_kind sup.now.csum_type) }
    ensures { result ≡ form_of sup.now }
{
    Form {
        fsid: sup.node_fsid(),
        nodesize: sup.nodesize,
        sums: sum_kind(sup.csum_type).unwrap(),
    }
}

/// The chunk tree of a volume with this superblock.
pub fn chunk_tree(sup: &Super) -> Tree
    requires kind { IsSome (known_kind sup.now.csum_type) }
    ensures { result ≡ chunk_tree sup.now }
{
    Tree {
        form: form_of(sup),
        root: NodePointer {
            address: sup.chunk_root,
            level: sup.chunk_root_level,
            generation: sup.chunk_root_generation,
        },
        owner: CHUNK_TREE,
    }
}

/// The root tree of a volume with this superblock.
pub fn root_tree(sup: &Super) -> Tree
    requires kind { IsSome (known_kind sup.now.csum_type) }
    ensures { result ≡ root_tree sup.now }
{
    Tree {
        form: form_of(sup),
        root: NodePointer {
            address: sup.root,
            level: sup.root_level,
            generation: sup.generation,
        },
        owner: ROOT_TREE,
    }
}

/// The number of the tree that an entry names.
fn tree_number(key: Option<Key>) -> Option<u64>
    ensures { result ≡ option_and_then tree_number key }
{
    match key {
        Some(key) => {
            if key.kind == ROOT_ITEM {
                Some(key.objectid)
            } else {
                None
            }
        }
        None => None,
    }
}

impl Btrfs {
    /// The chunk tree.
    #[tactic(auto, using(btr_reader_walk::proofs::Stacks::sized))]
    pub fn chunk_tree(&self) -> Tree
        ensures tree { result ≡ chunk_tree self.now.sup }
        ensures walkable { IsWalkable result }
    {
        chunk_tree(&self.sup)
    }

    /// The root tree.
    #[tactic(auto, using(btr_reader_walk::proofs::Stacks::sized))]
    pub fn root_tree(&self) -> Tree
        ensures tree { result ≡ root_tree self.now.sup }
        ensures walkable { IsWalkable result }
    {
        root_tree(&self.sup)
    }

    /// The tree of a root item that was looked for.
    #[tactic(auto, using(btr_reader_walk::proofs::Stacks::sized))]
    fn tree_in(&self, number: u64, root: Option<RootFound>) -> Result<Option<Tree>, BtrAnswer>
        ensures finds { (item : Option TreeItem) → TellsRoot root item → FindsTree self.now.sup number item result }
        ensures walkable { IfOk result (λ o. IfSome o IsWalkable) }
        ensures known { IfErr result NamesNoLogTree }
        ensures cause { IfErr result IsNoFault }
    {
        let root = match root {
            Some(root) => root,
            None => return Ok(None),
        };
        let pointer = match root.pointer {
            Some(pointer) => pointer,
            None => return Err(refused(root.leaf, BtrRule::Body)),
        };
        if pointer.level > 7 {
            return Err(refused(root.leaf, BtrRule::Body));
        }
        Ok(Some(Tree {
            form: form_of(&self.sup),
            root: pointer,
            owner: number,
        }))
    }

    /// The tree with this number, if it has a root item. It is refused where the body of the root item is off its grammar.
    pub fn find_tree(&self, number: u64) -> Result<Option<Tree>, BtrAnswer>
        ensures walkable { IfOk result (λ o. IfSome o IsWalkable) }
        ensures known { IfErr result NamesNoLogTree }
        ensures cause { IfErr result IsNoFault }
        ensures finds { (items : List TreeItem) → HasRoots self.now.roots items → FindsTree self.now.sup number (root_item number items) result }
    {
        self.tree_in(number, self.roots.of(number))
    }

    /// The tree that the entry `reiserfs_saved` of a file tree names, if the entry and that tree's root item are there.
    ///
    /// All nodes of the file tree are looked at, and of the bodies in them the directory indexes of inode 256. It is
    /// refused exactly where something is wrong with them, or with the root item, by one of the things that are. All
    /// items of the file tree are noted by the way.
    pub fn saved_tree<S: BlockSource, N: Notes>(
        &self,
        alloc: Global,
        src: &mut S,
        file: Tree,
        notes: &mut N,
    ) -> Result<Option<Tree>, BtrAnswer>
        requires walkable { IsWalkable file }
        requires inside { LieOn (S.size src.old) self.now.ranges.items }
        requires begun { N.holds notes.old notes.old [] }
        ensures kept { S.kept src.old src.new }
        ensures cause { HasCauseOf BtrAnswer.Fault (S.faults src.old) (S.faults src.new) result }
        ensures walkable { IfOk result (λ o. IfSome o IsWalkable) }
        ensures known { IfErr result NamesNoLogTree }
        ensures finds { OverTold S.tells (S.blocks src.old) (λ image. (roots : List TreeItem) → HasRoots self.now.roots roots →
            FindsSaved self.now.sup roots (entry_refusals image self.now.ranges.items file) (found image self.now.ranges.items file) result) }
        ensures noted { OverTold S.tells (S.blocks src.old) (λ image. OnOk result (N.holds notes.old notes.new (found image self.now.ranges.items file))) }
    {
        let entry = find_entry(
            alloc,
            src,
            file,
            self.ranges.as_slice(),
            b"reiserfs_saved",
            notes,
            &mut NoNotes,
        )?;
        match tree_number(entry) {
            Some(number) => self.find_tree(number),
            None => Ok(None),
        }
    }
}
