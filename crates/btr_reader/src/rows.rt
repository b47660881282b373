ghost use Rattle.std.specs.Prelude.{◌≡◌, ◌≢◌, ℕ, Bool, List, map, Some, Err, IfErr, IfOk};
ghost use Rattle.std.specs.Result.{MatchResult};
ghost use Rattle.btr_reader_walk.specs.outside.Fault.{HasCauseOf};
ghost use Rattle.btr_reader_walk.specs.outside.History.{Image, OverTold};
ghost use Rattle.btr_reader_walk.specs.refusals.declared.refusal.BtrRefusal.TheVariants.{BadBtrfs, LogPending};
ghost use Rattle.btr_reader_walk.specs.refusals.declared.rule.BtrRule.TheVariants.{SuperField};
ghost use Rattle.btr_reader_walk.specs.declared.map.MapRange.{MapRange as RangeOf};
ghost use Rattle.btr_reader_walk.specs.declared.tree.NodePointer.{NodePointer as NodePointerOf};
ghost use Rattle.btr_reader_walk.specs.Events.{TreeItem};
ghost use Rattle.btr_reader_walk.specs.Walks.{LieOn};
ghost use Rattle.fs_paths.specs.fs_rows.Rows.{WholeRow, row_of};
ghost use Rattle.indexmap.specs.IndexSet.{contains};
ghost use Rattle.fs_paths.specs.Links.{same_node};
ghost use Rattle.btr_reader_contents.specs.Blocks.{AreInBlocks};
ghost use Rattle.btr_reader_contents.specs.Contents.{known_content};
ghost use Rattle.btr_reader_names.specs.Roots.{has_root};
ghost use Rattle.btr_reader_names.specs.Table.{HasNotedNames};
ghost use Rattle.btr_reader.specs.Made.{IsChecked, IsMemory, IsReadTree, RefusesChecked, RefusesRows, RefusesTree};
ghost use Rattle.btr_reader_names.specs.Refuses.{IsNoFault};
ghost use Rattle.btr_reader.specs.Opening.{tree_of};
ghost use Rattle.btr_reader.specs.Reading.{IsWalkable};
ghost use Rattle.btr_reader.specs.Roots.{root_item, pointer_of, HasRoots};
ghost use Rattle.btr_reader.specs.Volume.{IsVolumeOn};
ghost use Rattle.btr_reader.specs.Rows.{AreBtrfsRows, AreRows, roots_on};

use crate::placed::row_at;
use crate::refusal::refused;
use crate::volume::Btrfs;
use btr_reader_contents::Contents;
use btr_reader_names::{NameTable, inode_node};
use btr_reader_walk::{BlockSource, BtrAnswer, BtrRefusal, BtrRule, Tree};
use btr_space_items::btrfs_format::block::SUPER_INFO_OFFSET;
use btr_space_items::btrfs_format::object::{FIRST_FREE_OBJECTID, FS_TREE};
use fs_paths::fs_rows::Rows;
use fs_paths::{NodeId, paths};
use indexmap::IndexSet;
use std::alloc::Global;

impl Btrfs {
    /// The rows of the file tree, number 5: one for each path, ascending. The entry of the saved image is no part of it.
    ///
    /// Over the source that was opened it is refused exactly where there is a log tree, or else where something is wrong
    /// with the tree, its names or the extents of a named file or symlink, by one of the things that are. The blocks of
    /// each file are read once, however many names it has. Over a source with another number of blocks it is refused,
    /// whatever the blocks are.
    pub fn rows<S: BlockSource>(&self, alloc: Global, src: &mut S) -> Result<Rows, BtrAnswer>
        ensures kept { S.kept src.old src.new }
        ensures cause { HasCauseOf BtrAnswer.Fault (S.faults src.old) (S.faults src.new) result }
        // Over any source: a log tree first, and then another number of blocks.
        ensures logged { self.now.sup.log_root ≢ 0 → result ≡ Err (BtrAnswer.Refused (LogPending self.now.sup.log_root)) }
        ensures resized { self.now.sup.log_root ≡ 0 → S.size src.old ≢ self.now.device → result ≡ Err (BtrAnswer.Refused (BadBtrfs SUPER_INFO_OFFSET SuperField)) }
        ensures rows { OverTold S.tells (S.blocks src.old) (λ image. IsVolumeOn image self.now →
            MatchResult result (λ rows. (self.now.sup.log_root ≡ 0) × ((whole : List WholeRow) × AreBtrfsRows image self.now.sup self.now.ranges.items whole × (rows ≡ map row_of whole)))
            (RefusesRows image self.now.sup self.now.ranges.items)) }
    {
        if self.sup.log_root != 0 {
            return Err(BtrAnswer::Refused(BtrRefusal::LogPending {
                address: self.sup.log_root,
            }));
        }
        if src.len() != self.device {
            return Err(refused(SUPER_INFO_OFFSET, BtrRule::SuperField));
        }
        let tree = self.file_tree()?;
        self.read_rows(alloc, src, tree)
    }

    /// The file tree.
    pub(crate) fn file_tree(&self) -> Result<Tree, BtrAnswer>
        ensures walkable { IfOk result IsWalkable }
        ensures cause { IfErr result IsNoFault }
        ensures finds { (image : Image) → HasRoots self.now.roots (roots_on image self.now.sup self.now.ranges.items) →
            MatchResult result (λ t. (i : TreeItem) × (p : NodePointerOf) × (root_item FS_TREE (roots_on image self.now.sup self.now.ranges.items) ≡ Some i) × (pointer_of i.body ≡ Some p) × (t ≡ tree_of self.now.sup FS_TREE p))
            (RefusesTree image self.now.sup self.now.ranges.items) }
    {
        match self.find_tree(FS_TREE)? {
            Some(tree) => Ok(tree),
            None => Err(refused(self.sup.root, BtrRule::NoInode)),
        }
    }

    /// The inodes that are named in a tree with these names, whose root node has this address, where all the rules of names
    /// are kept.
    pub(crate) fn named(
        &self,
        alloc: Global,
        names: &NameTable,
        root: u64,
    ) -> Result<IndexSet<NodeId>, BtrAnswer>
        ensures cause { IfErr result IsNoFault }
        ensures named { (image : Image) → HasRoots self.now.roots (roots_on image self.now.sup self.now.ranges.items) →
            (items : List TreeItem) → HasNotedNames names.now items →
            MatchResult result (λ named. IsChecked names.now (contains same_node named) items root (has_root (roots_on image self.now.sup self.now.ranges.items))) (RefusesChecked (has_root (roots_on image self.now.sup self.now.ranges.items)) items root) }
    {
        names.check(alloc, root, &self.roots.numbers)
    }

    /// The rows of the file tree.
    fn read_rows<S: BlockSource>(
        &self,
        alloc: Global,
        src: &mut S,
        tree: Tree,
    ) -> Result<Rows, BtrAnswer>
        requires inside { LieOn (S.size src.old) self.now.ranges.items }
        requires walkable { IsWalkable tree }
        ensures kept { S.kept src.old src.new }
        ensures cause { HasCauseOf BtrAnswer.Fault (S.faults src.old) (S.faults src.new) result }
        ensures rows { OverTold S.tells (S.blocks src.old) (λ image. AreInBlocks self.now.ranges.items → HasRoots self.now.roots (roots_on image self.now.sup self.now.ranges.items) →
            (i : TreeItem) (p : NodePointerOf) → root_item FS_TREE (roots_on image self.now.sup self.now.ranges.items) ≡ Some i → pointer_of i.body ≡ Some p → tree ≡ tree_of self.now.sup FS_TREE p →
            MatchResult result (λ rows. (whole : List WholeRow) × AreBtrfsRows image self.now.sup self.now.ranges.items whole × (rows ≡ map row_of whole)) (RefusesTree image self.now.sup self.now.ranges.items)) }
    {
        let ranges = self.ranges.as_slice();
        let names = NameTable::read(alloc, src, tree, ranges)?;
        let named = self.named(alloc, &names, tree.root.address)?;
        let contents = Contents::read(alloc, src, tree, ranges, &names, &named)?;
        rows_of(alloc, &names, &named, &contents)
    }
}

/// The rows of the paths of a tree whose names and contents are these.
fn rows_of(
    alloc: Global,
    names: &NameTable,
    named: &IndexSet<NodeId>,
    contents: &Contents,
) -> Result<Rows, BtrAnswer>
    ensures cause { IfErr result IsNoFault }
    ensures rows { (image : Image) (ranges : List RangeOf) (items : List TreeItem) (root : ℕ) (has_root : ℕ → Bool) → IsReadTree names.now (contains same_node named.now) (known_content contents.now) image ranges items root has_root →
        MatchResult result (λ rows. (whole : List WholeRow) × AreRows image ranges items whole × (rows ≡ map row_of whole)) IsMemory }
{
    let links = names.links(alloc, named)?;
    let paths = paths(alloc, links, inode_node(FIRST_FREE_OBJECTID))?;
    let mut rows = Rows::new(alloc);
    for i in 0..paths.len() {
        let row = row_at(alloc, names, contents, &paths[i], &rows)?;
        rows.add(row)?;
    }
    Ok(rows)
}
