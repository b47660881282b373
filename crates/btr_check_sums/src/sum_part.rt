// Part 5 of a sound volume.
ghost use Rattle.std.specs.Prelude.{◌≡◌, ◌≤◌, ◌⊎◌, ℕ, map, IfErr, MatchResult};
ghost use Rattle.number_runs.specs.Runs.{is_among};
ghost use Rattle.btr_check_rules.specs.Recount.{Recount};
ghost use Rattle.btr_check_rules.specs.Sums.{KeepsSums};
ghost use Rattle.btr_check_rules.specs.Walk.{walk_refusals, walked_items};
ghost use Rattle.btr_check_rules.specs.btr_reader.btr_node.NodeSize.{IsNodeSize};
ghost use Rattle.btr_check_rules.specs.btr_reader.btr_reader_walk.Tree.{bare_item};
ghost use Rattle.btr_check_rules.specs.btr_reader.btr_reader_walk.Walks.{LieOn};
ghost use Rattle.btr_check_rules.specs.btr_reader.outside.Fault.{HasCauseOf};
ghost use Rattle.btr_check_rules.specs.btr_reader.outside.History.{OverTold};
ghost use Rattle.btr_check_walk.specs.Parts.{BreaksTrees, IsPartAnswer, TellsPart};
ghost use Rattle.btr_check_sums.specs.Parts.{AreUsedBlocks, BreaksPart, EndsLow, IsSumTree};
ghost use Rattle.btr_check_sums.specs.SumItems.{AreSumItems, BreaksSumItems, is_covered};

use crate::cover::judge_cover;
use crate::sum_pass::SumPass;
use crate::tree_data::judge_data;
use crate::use_of_data::UsedBlocks;
use btr_check_rules::btr_reader::btr_reader_walk::{BlockSource, MapRange, Tree};
use btr_check_walk::{Answer, each_item};
use number_runs::Runs;
use std::alloc::Global;

/// Judges the items of the checksum tree, and answers which blocks have checksums, by their numbers.
fn judge_items<S: BlockSource>(
    alloc: Global,
    src: &mut S,
    ranges: &[MapRange],
    tree: Tree,
) -> Result<Runs, Answer>
    requires size { IsNodeSize tree.form.nodesize }
    requires high { tree.root.level ≤ 7 }
    requires inside { LieOn (S.size src.old) ranges.now }
    ensures kept { S.kept src.old src.new }
    ensures cause { HasCauseOf Answer.Fault (S.faults src.old) (S.faults src.new) result }
    ensures answers { IfErr result IsPartAnswer }
    ensures items { OverTold S.tells (S.blocks src.old) (λ image. MatchResult result
        (λ covered. AreSumItems tree.form.nodesize tree.form.sums (map bare_item (walked_items image ranges.now tree)) × ((n : ℕ) → is_among covered n ≡ is_covered tree.form.sums (map bare_item (walked_items image ranges.now tree)) n))
        (TellsPart (λ part a. BreaksTrees (walk_refusals image ranges.now tree) part a ⊎ BreaksSumItems tree.form.nodesize tree.form.sums (map bare_item (walked_items image ranges.now tree)) part a))) }
{
    let mut pass = SumPass::new(alloc, tree.form.nodesize, tree.form.sums);
    each_item(alloc, src, ranges, tree, &mut pass)?;
    let SumPass { covered, .. } = pass;
    Ok(covered.into_runs())
}

/// Judges the checksums of data: which blocks have them, by the blocks that files use, and that each is right. The tree is
/// that of the checksums, and lies by the map `ranges`, as data does.
///
/// The tree is walked twice, and all data that has checksums is read once. It ends with the first thing that is wrong:
/// [`Answer::NotSound`] of part 5, or of part 1 at a node of the tree.
pub fn judge_sums<S: BlockSource>(
    alloc: Global,
    src: &mut S,
    ranges: &[MapRange],
    tree: Tree,
    used: &UsedBlocks,
) -> Result<(), Answer>
    requires size { IsNodeSize tree.form.nodesize }
    requires high { tree.root.level ≤ 7 }
    requires inside { LieOn (S.size src.old) ranges.now }
    ensures kept { S.kept src.old src.new }
    ensures cause { HasCauseOf Answer.Fault (S.faults src.old) (S.faults src.new) result }
    ensures answers { IfErr result IsPartAnswer }
    ensures sums { OverTold S.tells (S.blocks src.old) (λ image. (r : Recount) → IsSumTree image r ranges.now tree → AreUsedBlocks r used.now → EndsLow r →
        MatchResult result (λ _. (a : ℕ) → KeepsSums image r a) (TellsPart (λ part a. BreaksTrees (walk_refusals image ranges.now tree) part a ⊎ BreaksPart image r part a))) }
{
    let covered = judge_items(alloc, src, ranges, tree)?;
    judge_cover(used, &covered)?;
    judge_data(alloc, src, ranges, tree)
}
