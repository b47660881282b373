ghost use Rattle.reiser_make_laws.specs.Accepted.{SamplesHaveObjects, SamplesHaveNames, SamplesAreAccepted};
ghost use Rattle.reiser_make_laws.specs.Laws.{SamplesAreClean, SamplesMarkUsed, SamplesMarkSystem, SamplesHoldTheirBlocks};
ghost use Rattle.reiser_make_laws.specs.Rows.{SamplesHaveTheirRows, SamplesAreAsDescribed};
ghost use Rattle.reiser_make_laws.specs.Nodes.{LeavesReadBack, InnerNodesReadBack, SampleLeavesReadBack, SampleInnerNodesReadBack};
ghost use Rattle.reiser_make_laws.specs.Walk.{SamplesAreWalked, SamplesHoldTheirItems, SamplesKeepGrammar, SamplesFitTheirHeads, SamplesAscend, SamplesKeepTreeRules, SampleTreesAreSound};

/// The superblock of a sample is that of a clean volume, and no transaction waits in its journal.
pub fn samples_are_clean()
    ensures { SamplesAreClean }
{}

/// The bitmap of a sample marks just the blocks that the sample uses.
pub fn samples_mark_used()
    ensures { SamplesMarkUsed }
{}

/// The bitmap of a sample marks the blocks that the volume keeps for itself.
pub fn samples_mark_system()
    ensures { SamplesMarkSystem }
{}

/// A leaf that was written of items that have room in it reads as these items.
pub fn leaves_read_back()
    ensures { LeavesReadBack }
{}

/// An inner node that was written of children that have room in it names these children.
pub fn inner_nodes_read_back()
    ensures { InnerNodesReadBack }
{}

/// A sample has each block of its layout in the place that the layout gives it.
pub fn samples_hold_their_blocks()
    ensures { SamplesHoldTheirBlocks }
{}

/// Each leaf of a sample reads as the items that the layout puts into it.
pub fn sample_leaves_read_back()
    ensures { SampleLeavesReadBack }
{}

/// Each inner node of a sample names its children.
pub fn sample_inner_nodes_read_back()
    ensures { SampleInnerNodesReadBack }
{}

/// A walk of a sample meets the nodes of its layout, each with what the layout puts into it.
pub fn samples_are_walked()
    ensures { SamplesAreWalked }
{}

/// The items that a walk of a sample meets are those of the layout, in their order, with their heads and bodies.
pub fn samples_hold_their_items()
    ensures { SamplesHoldTheirItems }
{}

/// Each node that a walk of a sample visits is on the grammar of its level.
pub fn samples_keep_grammar()
    ensures { SamplesKeepGrammar }
{}

/// Each body of an item of a sample fits its head.
pub fn samples_fit_their_heads()
    ensures { SamplesFitTheirHeads }
{}

/// The items of a sample ascend.
pub fn samples_ascend()
    ensures { SamplesAscend }
{}

/// A sample keeps each rule of trees: what a walk reaches lies in the volume, is used, is none of its own blocks, and is
/// reached once.
pub fn samples_keep_tree_rules()
    ensures { SamplesKeepTreeRules }
{}

/// Nothing is wrong with the tree of a sample.
pub fn sample_trees_are_sound()
    ensures { SampleTreesAreSound }
{}

/// The objects of a sample are in order: no save link, a root directory, and each named object with stat data of a known
/// kind, items that fit the kind and do not overlap, and a size in its range.
pub fn samples_have_objects()
    ensures { SamplesHaveObjects }
{}

/// A sample keeps each rule of names.
pub fn samples_have_names()
    ensures { SamplesHaveNames }
{}

/// A sample is an accepted volume: it keeps each rule that a reader asks for.
pub fn samples_are_accepted()
    ensures { SamplesAreAccepted }
{}

/// A sample has the rows of its number, and no others: paths with their kinds, owners, times, names and bytes.
pub fn samples_have_their_rows()
    ensures { SamplesHaveTheirRows }
{}

/// A sample is what its number says: an accepted volume with the rows of the number.
pub fn samples_are_as_described()
    ensures { SamplesAreAsDescribed }
{}
