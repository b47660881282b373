ghost use Rattle.std.specs.Prelude.{◌≤◌, IfErr, IfOk};
ghost use Rattle.indexmap.specs.IndexSet.{contains};
ghost use Rattle.btr_reader_walk.specs.outside.Fault.{HasCauseOf};
ghost use Rattle.btr_reader_walk.specs.outside.History.{OverTold};
ghost use Rattle.btr_reader_walk.specs.btr_node.NodeSize.{IsNodeSize};
ghost use Rattle.btr_reader_walk.specs.Walks.{LieOn, found, wrong};
ghost use Rattle.btr_reader_contents.specs.Blocks.{AreInBlocks};
ghost use Rattle.btr_reader_names.specs.Table.{HasNotedNames};
ghost use Rattle.fs_paths.specs.Links.{same_node};
ghost use Rattle.btr_reader_contents.specs.Contents.{wanted_at, HasContents, RefusesContents, known_content};

use crate::Contents;
use crate::gathering::Gathering;
use crate::wanted::item_wanted;
use btr_reader_names::NameTable;
use btr_reader_walk::{BlockSource, BtrAnswer, MapRange, Tree, TreeWalker};
use fs_paths::NodeId;
use indexmap::IndexSet;
use std::alloc::Global;

impl Contents {
    /// The contents of the files and symlinks among these inodes, `names` being those of the tree: one walk. It is refused
    /// exactly where something is wrong with the tree or with the extents of one of these, by one of the things that are;
    /// long targets are left to [`NameTable::check`]. The blocks of each are read once, as far as they lie below its size.
    pub fn read<S: BlockSource>(
        alloc: Global,
        src: &mut S,
        tree: Tree,
        ranges: &[MapRange],
        names: &NameTable,
        named: &IndexSet<NodeId>,
    ) -> Result<Contents, BtrAnswer>
        requires size { IsNodeSize tree.form.nodesize }
        requires high { tree.root.level ≤ 7 }
        requires inside { LieOn (S.size src.old) ranges.now }
        ensures kept { S.kept src.old src.new }
        ensures cause { HasCauseOf BtrAnswer.Fault (S.faults src.old) (S.faults src.new) result }
        ensures contents { OverTold S.tells (S.blocks src.old) (λ image. AreInBlocks ranges.now → HasNotedNames names.now (found image ranges.now tree) →
            IfOk result (λ contents. HasContents (wanted_at (contains same_node named.now) (found image ranges.now tree)) image ranges.now (found image ranges.now tree) (known_content contents))) }
        ensures refused { OverTold S.tells (S.blocks src.old) (λ image. AreInBlocks ranges.now → HasNotedNames names.now (found image ranges.now tree) →
            IfErr result (RefusesContents (wanted_at (contains same_node named.now) (found image ranges.now tree)) image ranges.now tree)) }
    {
        let mut gathering = Gathering::new(alloc);
        let mut walker = TreeWalker::new(alloc, tree)?;
        while walker.advance(src, ranges)? {
            let key = walker.key();
            let wanted = item_wanted(names, named, &key);
            gathering.add_item(
                alloc,
                src,
                ranges,
                wanted,
                &key,
                walker.body(),
                walker.leaf(),
            )?;
        }
        let known = gathering.finish(alloc)?;
        Ok(Contents { known })
    }
}
