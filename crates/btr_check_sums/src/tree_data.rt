// All data that has checksums.
ghost use Rattle.std.specs.Prelude.{◌≡◌, ◌≤◌, ◌<◌, ◌⊎◌, List, map, false, IsTrue, IfErr, IfOk, MatchResult};
ghost use Rattle.btr_check_rules.specs.Walk.{owners_of, walk_refusals, walked_items};
ghost use Rattle.btr_check_rules.specs.btr_reader.btr_node.NodeSize.{IsNodeSize};
ghost use Rattle.btr_check_rules.specs.btr_reader.btr_reader_walk.Events.{TreeItem};
ghost use Rattle.btr_check_rules.specs.btr_reader.btr_reader_walk.Tree.{bare_item};
ghost use Rattle.btr_check_rules.specs.btr_reader.btr_reader_walk.Walks.{Comes, HasItem, LieOn, Walks, fuel, wrong};
ghost use Rattle.btr_check_rules.specs.btr_reader.btr_reader_walk.declared.tree.Owners.TheVariants.{Own};
ghost use Rattle.btr_check_rules.specs.btr_reader.outside.Fault.{HasCauseOf};
ghost use Rattle.btr_check_rules.specs.btr_reader.outside.History.{OverTold};
ghost use Rattle.btr_check_walk.specs.Parts.{BreaksTrees, IsPartAnswer, TellsPart};
ghost use Rattle.btr_check_sums.specs.DataSums.{AreSumsRight, BreaksSums};

use crate::due_sum::DataPass;
use btr_check_rules::btr_reader::btr_reader_walk::{BlockSource, MapRange, Tree, TreeWalker};
use btr_check_walk::{Answer, tree_answer};
use std::alloc::Global;

/// Goes on to the next item of a tree. False after the last.
fn go_on<S: BlockSource>(
    walker: &mut TreeWalker,
    src: &mut S,
    ranges: &[MapRange],
) -> Result<bool, Answer>
    requires fresh { walker.old.spent ≡ false }
    requires inside { LieOn (S.size src.old) ranges.now }
    ensures kept { S.kept src.old src.new }
    ensures cause { HasCauseOf Answer.Fault (S.faults src.old) (S.faults src.new) result }
    ensures answers { IfErr result IsPartAnswer }
    ensures tree { walker.new.tree ≡ walker.old.tree }
    ensures fresh { IfOk result (λ more. walker.new.spent ≡ false) }
    ensures stands { IfOk result (λ more. IsTrue more → HasItem walker.new) }
    ensures ends { IfOk result (λ more. IsTrue more → fuel walker.new < fuel walker.old) }
    ensures comes { OverTold S.tells (S.blocks src.old) (λ image. (given : List TreeItem) → Walks walker.old image ranges.now given →
        MatchResult result (λ more. Comes more walker.old.tree walker.new image ranges.now given) (TellsPart (BreaksTrees (wrong image ranges.now walker.old.tree)))) }
{
    match walker.advance(src, ranges) {
        Ok(more) => Ok(more),
        Err(answer) => Err(tree_answer(answer)),
    }
}

/// Reads all data that has checksums, and judges these: the tree is that of the checksums, and its nodes lie by `ranges`.
///
/// Data is read in the order of its addresses, those of 64 MiB at a time in the order of the device.
pub fn judge_data<S: BlockSource>(
    alloc: Global,
    src: &mut S,
    ranges: &[MapRange],
    tree: Tree,
) -> Result<(), Answer>
    requires size { IsNodeSize tree.form.nodesize }
    requires high { tree.root.level ≤ 7 }
    requires inside { LieOn (S.size src.old) ranges.now }
    ensures kept { S.kept src.old src.new }
    ensures cause { HasCauseOf Answer.Fault (S.faults src.old) (S.faults src.new) result }
    ensures answers { IfErr result IsPartAnswer }
    ensures right { OverTold S.tells (S.blocks src.old) (λ image. owners_of tree.owner ≡ Own →
        MatchResult result (λ _. AreSumsRight image ranges.now tree.form.sums (map bare_item (walked_items image ranges.now tree)))
        (TellsPart (λ part a. BreaksTrees (walk_refusals image ranges.now tree) part a ⊎ BreaksSums image ranges.now tree.form.sums (map bare_item (walked_items image ranges.now tree)) part a))) }
{
    let mut pass = DataPass::new(alloc, tree.form.sums)?;
    let mut walker = TreeWalker::new(alloc, tree)?;
    while go_on(&mut walker, src, ranges)? {
        pass.note_item(alloc, src, ranges, walker.key().offset, walker.body())?;
    }
    pass.judge(alloc, src)
}
