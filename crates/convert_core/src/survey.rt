ghost use Rattle.std.specs.Prelude.{◌≡◌, IfOk, IfErr};
ghost use Rattle.std.specs.Result.{MatchResult};
ghost use Rattle.unit_plan.specs.btr_node.NodeSize.{IsNodeSize};
ghost use Rattle.reiser_volume.specs.reiser_volume_contents.Answers.{IsFileAnswer, IsFaultOrMemory};
ghost use Rattle.reiser_volume.specs.outside.Fault.{HasCauseOf};
ghost use Rattle.reiser_volume.specs.outside.History.{OverTold};
ghost use Rattle.reiser_volume.specs.Answers.{RefusesVolume};
ghost use Rattle.reiser_volume.specs.Reading.{IsReadingAnswer};
ghost use Rattle.reiser_volume.specs.Opened.{IsOpened};
ghost use Rattle.reiser_volume.specs.Volume.{IsAccepted};
ghost use Rattle.unit_plan.specs.Choice.{IsSmallNeed};
ghost use Rattle.convert_core.specs.Surveyed.{IsSurvey};

use extent_pieces::Pieces;
use reiser_volume::{BlockSource, VolAnswer, Volume};
use std::alloc::Global;
use unit_plan::convert_options::Options;
use unit_plan::{Counts, Need, needed};

/// What a conversion counts of a volume, and the space that it needs.
#[derive(Clone, Copy, Debug, PartialEq, Eq)]
pub struct Survey {
    /// What is counted.
    pub counts: Counts,
    /// In units of 1 MiB.
    pub need: Need,
}

impl Survey {
    /// The survey of an opened volume, for a conversion with these options. The leaves of each file are read once.
    ///
    /// A refusal names a block that the device has no more, or that reads otherwise than when the volume was opened.
    pub fn of<S: BlockSource>(
        alloc: Global,
        src: &mut S,
        volume: &Volume,
        options: &Options,
    ) -> Result<Survey, VolAnswer>
        requires { IsNodeSize options.now.nodesize }
        ensures kept { S.kept src.old src.new }
        ensures cause { HasCauseOf VolAnswer.Fault (S.faults src.old) (S.faults src.new) result }
        ensures answers { IfErr result IsFileAnswer }
        ensures small { IfOk result (λ s. IsSmallNeed s.need) }
        ensures told { OverTold S.tells (S.blocks src.old) (λ image. IsAccepted image → IsOpened volume.now image →
            MatchResult result (IsSurvey options.now image) IsFaultOrMemory) }
    {
        let pieces = Pieces::find(alloc, src, volume, options)?;
        let counts = pieces.counts();
        Ok(Survey {
            counts,
            need: needed(&counts, options),
        })
    }

    /// Opens a volume, and surveys it for a conversion with these options. A refusal is one of the volume, or names a block
    /// that was read twice and read otherwise the second time.
    pub fn read<S: BlockSource>(
        alloc: Global,
        src: &mut S,
        options: &Options,
    ) -> Result<Survey, VolAnswer>
        requires { IsNodeSize options.now.nodesize }
        ensures kept { S.kept src.old src.new }
        ensures cause { HasCauseOf VolAnswer.Fault (S.faults src.old) (S.faults src.new) result }
        ensures answers { IfErr result IsReadingAnswer }
        ensures small { IfOk result (λ s. IsSmallNeed s.need) }
        ensures told { OverTold S.tells (S.blocks src.old) (λ image.
            MatchResult result (λ s. IsAccepted image × IsSurvey options.now image s) (RefusesVolume image)) }
    {
        let volume = Volume::open(alloc, src)?;
        Survey::of(alloc, src, &volume, options)
    }
}
