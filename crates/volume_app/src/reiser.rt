ghost use Rattle.std.specs.Prelude.{◌≡◌, [], IfOk, IfErr, IsTrue};
ghost use Rattle.std.specs.Result.{MatchResult};
ghost use Rattle.reiser_volume.specs.outside.Fault.{HasCause, HasCauseOf, Takes};
ghost use Rattle.reiser_volume.specs.outside.History.{OverTold};
ghost use Rattle.reiser_volume.specs.Answers.{RefusesVolume};
ghost use Rattle.reiser_volume.specs.Reading.{IsReadingAnswer};
ghost use Rattle.unit_plan.specs.Choice.{IsSmallNeed};
ghost use Rattle.unit_plan.specs.btr_node.NodeSize.{IsNodeSize};
ghost use Rattle.reiser_volume.specs.Volume.{IsAccepted};
ghost use Rattle.sink_text.specs.Text.{piece_text};
ghost use Rattle.volume_app.specs.Reiser.{label_of, label_text, IsReiserSummary, summary_text, summary_with, ListsReiser};

use convert_core::Survey;
use reiser_volume::fs_rows::Rows;
use reiser_volume::reiser_super::Super;
use reiser_volume::{BlockSource, Fault, Sink, VolAnswer, Volume};
use sink_text::TextPart::{Decimal, Escaped, Hyphenated, Plain};
use sink_text::{TextPart, write_pieces};
use std::alloc::Global;
use unit_plan::Need;
use unit_plan::convert_options::Options;

/// What is told of a ReiserFS volume.
#[derive(Clone, Copy, Debug)]
pub struct ReiserSummary {
    /// The fields of the superblock.
    pub superblock: Super,
    /// The number of blocks that the bitmap marks as used.
    pub used: u64,
    /// The number of free units of 256 blocks.
    pub units: u64,
    /// The units that a conversion needs, by the options that it was asked for.
    pub needed: u64,
    /// Those of them that are to lie in one run.
    pub run: u64,
}

impl ReiserSummary {
    /// Checks the volume of a source, and reads what is told of it, for a conversion with these options.
    pub fn read<S: BlockSource>(
        alloc: Global,
        options: &Options,
        source: &mut S,
    ) -> Result<ReiserSummary, VolAnswer>
        requires size { IsNodeSize options.now.nodesize }
        ensures kept { S.kept source.old source.new }
        ensures cause { HasCauseOf VolAnswer.Fault (S.faults source.old) (S.faults source.new) result }
        ensures accepted { OverTold S.tells (S.blocks source.old) (λ image. IfOk result (λ s. IsAccepted image)) }
        ensures told { OverTold S.tells (S.blocks source.old) (λ image. IfOk result (IsReiserSummary options.now image)) }
        ensures refused { OverTold S.tells (S.blocks source.old) (λ image. IfErr result (RefusesVolume image)) }
        ensures answers { IfErr result IsReadingAnswer }
    {
        let volume = Volume::open(alloc, source)?;
        let survey = Survey::of(alloc, source, &volume, options)?;
        Ok(summary_of(&volume, &survey.need))
    }

    /// Prints twelve lines. After a fault the sink gained a first part of them.
    pub fn print<O: Sink>(&self, out: &mut O) -> Result<(), Fault>
        ensures taken { IsTrue O.tells → Takes (O.taken out.old) (summary_text self.now) result (O.taken out.new) }
        ensures cause { HasCause (O.faults out.old) (O.faults out.new) result }
    {
        let volume = &self.superblock;
        let pieces = [
            Plain(b"format reiserfs\nblocks "),
            Decimal(volume.blocks),
            Plain(b"\nfree "),
            Decimal(u64::from(volume.free)),
            Plain(b"\nroot "),
            Decimal(volume.root),
            Plain(b"\nheight "),
            Decimal(u64::from(volume.height)),
            Plain(b"\njournal "),
            Decimal(volume.journal_first),
            Plain(b" "),
            Decimal(volume.journal_size),
            Plain(b"\nuuid "),
            Hyphenated(volume.uuid),
            Plain(b"\nlabel "),
            label_piece(label_of(&volume.label)),
            Plain(b"\nused "),
            Decimal(self.used),
            Plain(b"\nunits "),
            Decimal(self.units),
            Plain(b"\nneeded "),
            Decimal(self.needed),
            Plain(b"\nrun "),
            Decimal(self.run),
            Plain(b"\n"),
        ];
        write_pieces(&pieces, out)
    }
}

/// What is told of an opened volume.
fn summary_of(volume: &Volume, need: &Need) -> ReiserSummary
    requires { IsSmallNeed need.now }
    ensures { result ≡ summary_with volume.now.sup volume.now.bitmap need.now }
{
    let map = volume.bitmap();
    ReiserSummary {
        superblock: *volume.sup(),
        used: map.used(),
        units: map.free_units(),
        needed: need.total(),
        run: need.system,
    }
}

/// How a label is printed: a dash where it is empty.
fn label_piece(label: &[u8]) -> TextPart<'_>
    ensures { piece_text result ≡ label_text label.now }
{
    match label {
        [] => Plain(b"-"),
        _ => Escaped(label),
    }
}

/// The label without the zeros that fill it up.
fn label_of(label: &[u8; 16]) -> &[u8]
    ensures { result.now ≡ label_of label.now }
{
    let mut end = 0;
    while end < label.len() && label[end] != 0 {
        end += 1;
    }
    &label[..end]
}

/// Checks the volume of a source, and makes its rows.
pub fn reiser_rows<S: BlockSource>(alloc: Global, source: &mut S) -> Result<Rows, VolAnswer>
    ensures kept { S.kept source.old source.new }
    ensures cause { HasCauseOf VolAnswer.Fault (S.faults source.old) (S.faults source.new) result }
    ensures rows { OverTold S.tells (S.blocks source.old) (λ image. MatchResult result (ListsReiser image) (RefusesVolume image)) }
    ensures answers { IfErr result IsReadingAnswer }
{
    let volume = Volume::open(alloc, source)?;
    volume.rows(alloc, source)
}
