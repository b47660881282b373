// A node of a tree, opened.
ghost use Rattle.std.specs.Prelude.{◌≡◌, ◌+◌, ◌<◌, IfErr, MatchResult, OnOk};
ghost use Rattle.btr_check_rules.specs.btr_reader.btr_node.Leaf.{HasLeafLayout};
ghost use Rattle.btr_check_rules.specs.btr_reader.btr_reader_walk.Nodes.{refusals_at};
ghost use Rattle.btr_check_rules.specs.btr_reader.btr_reader_walk.Stack.{weight};
ghost use Rattle.btr_check_rules.specs.btr_reader.btr_reader_walk.Visits.{HasRoom, Opens, nodes_fuel};
ghost use Rattle.btr_check_rules.specs.btr_reader.btr_reader_walk.Walks.{LieOn};
ghost use Rattle.btr_check_rules.specs.btr_reader.btr_reader_walk.outside.Fault.{HasCauseOf};
ghost use Rattle.btr_check_rules.specs.btr_reader.btr_reader_walk.outside.History.{OverTold};
ghost use Rattle.btr_check_rules.specs.Walk.{owners_of};
ghost use Rattle.btr_check_walk.specs.Parts.{BreaksTrees, IsPartAnswer, TellsPart};

use crate::refused::tree_answer;
use btr_check_rules::btr_reader::btr_reader_walk::{
    BlockSource, MapRange, NodeEntry, NodeWalker, Owners, is_file_tree,
};
use command_answers::Answer;

/// Whose nodes the tree with this number may have: trees of files share theirs.
pub fn owners_of(number: u64) -> Owners
    ensures { result ≡ owners_of number }
{
    if is_file_tree(number) {
        Owners::Files
    } else {
        Owners::Own
    }
}

/// Opens the node that was taken last, by the map `ranges`. Where it breaks a rule, part 1 fails at its address.
pub fn open_node<S: BlockSource>(
    walker: &mut NodeWalker,
    src: &mut S,
    ranges: &[MapRange],
    entry: &NodeEntry,
) -> Result<(), Answer>
    requires room { HasRoom walker.old entry.now }
    requires inside { LieOn (S.size src.old) ranges.now }
    ensures kept { S.kept src.old src.new }
    ensures cause { HasCauseOf Answer.Fault (S.faults src.old) (S.faults src.new) result }
    ensures answers { IfErr result IsPartAnswer }
    ensures opens { OverTold S.tells (S.blocks src.old) (λ image. MatchResult result (λ _. Opens entry.now walker.old walker.new image ranges.now)
        (TellsPart (BreaksTrees (refusals_at image ranges.now walker.old.tree walker.old.owners entry.now.pointer)))) }
    ensures tree { walker.new.tree ≡ walker.old.tree }
    ensures owners { walker.new.owners ≡ walker.old.owners }
    ensures layout { OnOk result (entry.now.pointer.level ≡ 0 → HasLeafLayout walker.new.bytes.items) }
    // It ends, whatever the source gives.
    ensures ends { OnOk result (nodes_fuel walker.new < weight walker.old.tree.form.nodesize entry.now.pointer.level + nodes_fuel walker.old) }
{
    match walker.open(src, ranges, entry) {
        Ok(()) => Ok(()),
        Err(answer) => Err(tree_answer(answer)),
    }
}
