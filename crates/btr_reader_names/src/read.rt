ghost use Rattle.std.specs.Prelude.{◌≡◌, ◌≤◌, [], IsTrue, IfOk, IfErr, OnOk};
ghost use Rattle.btr_reader_walk.specs.outside.Fault.{HasCauseOf};
ghost use Rattle.btr_reader_walk.specs.outside.History.{Image, OverTold};
ghost use Rattle.btr_reader_walk.specs.btr_node.NodeSize.{IsNodeSize};
ghost use Rattle.btr_reader_walk.specs.Walks.{LieOn, found, wrong};
ghost use Rattle.btr_reader_names.specs.Read.{BlamesTree};
ghost use Rattle.btr_reader_names.specs.Table.{HasNotedNames};

use crate::NameTable;
use btr_reader_walk::{BlockSource, BtrAnswer, MapRange, Tree, note_items};
use std::alloc::Global;

impl NameTable {
    /// The names of a whole file tree, where nothing is wrong with the tree: one walk.
    pub fn read<S: BlockSource>(
        alloc: Global,
        src: &mut S,
        tree: Tree,
        ranges: &[MapRange],
    ) -> Result<NameTable, BtrAnswer>
        requires size { IsNodeSize tree.form.nodesize }
        requires high { tree.root.level ≤ 7 }
        requires inside { LieOn (S.size src.old) ranges.now }
        ensures kept { S.kept src.old src.new }
        ensures cause { HasCauseOf BtrAnswer.Fault (S.faults src.old) (S.faults src.new) result }
        ensures noted { OverTold S.tells (S.blocks src.old) (λ image. IfOk result (λ names. HasNotedNames names (found image ranges.now tree))) }
        ensures ok { OverTold S.tells (S.blocks src.old) (λ image. OnOk result (wrong image ranges.now tree ≡ [])) }
        ensures err { OverTold S.tells (S.blocks src.old) (λ image. IfErr result (BlamesTree image ranges.now tree)) }
    {
        let mut names = NameTable::new(alloc);
        note_items(alloc, src, tree, ranges, &mut names)?;
        Ok(names)
    }
}
