ghost use Rattle.std.specs.Prelude.{◌≡◌, ◌≢◌, None, IfErr, IsTrue};
ghost use Rattle.std.specs.Result.{MatchResult};
ghost use Rattle.btr_reader.specs.btr_node.NodeSize.{IsNodeSize};
ghost use Rattle.reiser_volume.specs.outside.Fault.{HasCause, HasCauseOf, Takes};
ghost use Rattle.reiser_volume.specs.outside.History.{block_at, reads, OverTold};
ghost use Rattle.reiser_volume.specs.vol_block.declared.format.Format.TheVariants as formats;
ghost use Rattle.reiser_volume.specs.outside.Format.{format_in};
ghost use Rattle.convert_core.specs.convert_steps.Found.{IsFoundOn};
ghost use Rattle.volume_app.specs.Inspect.{inspect_meaning, inspected_text, Inspects, InspectRefuses, IsInspectAnswer};
ghost use Rattle.volume_app.specs.Outcome.{Performs};

use crate::Summary;
use crate::ending::{Ending, printed};
use crate::format::open_format;
use crate::reiser::ReiserSummary;
use btr_reader::btrfs_format::block::SUPER_BLOCK;
use convert_core::{Answer, FormatFound};
use reiser_volume::{Access, Block, BlockSource, Disk, Fault, Format, Sink};
use std::alloc::Global;
use unit_plan::convert_options::Options;

/// What `inspect` prints of a volume.
#[derive(Clone, Copy, Debug)]
pub enum Inspected {
    /// What it prints of a ReiserFS volume.
    Reiser(ReiserSummary),
    /// What it prints of a Btrfs volume.
    Btrfs(Summary),
}

impl Inspected {
    /// Prints what was found, a line for each. After a fault the sink gained a first part of it.
    pub fn print<O: Sink>(&self, out: &mut O) -> Result<(), Fault>
        ensures taken { IsTrue O.tells → Takes (O.taken out.old) (inspected_text self.now) result (O.taken out.new) }
        ensures cause { HasCause (O.faults out.old) (O.faults out.new) result }
    {
        match self {
            Inspected::Reiser(summary) => summary.print(out),
            Inspected::Btrfs(summary) => summary.print(out),
        }
    }
}

/// Inspects the volume at a path, and prints what it is, and what a conversion with these options would need.
pub fn inspect_volume<D: Disk, O: Sink>(
    alloc: Global,
    path: &str,
    options: &Options,
    disk: &mut D,
    out: &mut O,
) -> Ending
    requires closed { D.opened disk.old ≡ None }
    requires wanted { D.wants path.now Access.Read }
    requires size { IsNodeSize options.now.nodesize }
    ensures { Performs (inspect_meaning options.now) D.tells (D.history disk.old) (D.history disk.new) (D.faults disk.old) (D.faults disk.new)
        O.tells (O.taken out.old) (O.taken out.new) (O.faults out.old) (O.faults out.new) result }
{
    match inspect(alloc, path, options, disk) {
        Ok(found) => printed(found.print(out)),
        Err(answer) => Ending::Failed(answer),
    }
}

/// Opens the disk for reading, checks the volume, and reads what is printed of it.
fn inspect<D: Disk>(
    alloc: Global,
    path: &str,
    options: &Options,
    disk: &mut D,
) -> Result<Inspected, Answer>
    requires closed { D.opened disk.old ≡ None }
    requires wanted { D.wants path.now Access.Read }
    requires size { IsNodeSize options.now.nodesize }
    ensures unchanged { IsTrue D.tells → D.history disk.new ≡ D.history disk.old }
    ensures cause { HasCauseOf Answer.Fault (D.faults disk.old) (D.faults disk.new) result }
    ensures right { IsTrue D.tells → MatchResult result (Inspects options.now (reads (D.history disk.old))) (InspectRefuses (reads (D.history disk.old))) }
    ensures known { IfErr result IsInspectAnswer }
{
    let found = open_format(path, disk)?;
    inspect_as(&found, alloc, options, disk)
}

/// Checks a volume of the format that was found.
fn inspect_as<S: BlockSource>(
    found: &FormatFound,
    alloc: Global,
    options: &Options,
    source: &mut S,
) -> Result<Inspected, Answer>
    requires size { IsNodeSize options.now.nodesize }
    ensures kept { S.kept source.old source.new }
    ensures cause { HasCauseOf Answer.Fault (S.faults source.old) (S.faults source.new) result }
    ensures right { OverTold S.tells (S.blocks source.old) (λ image. IsFoundOn image found.now → MatchResult result (Inspects options.now image) (InspectRefuses image)) }
    ensures known { IfErr result IsInspectAnswer }
{
    match found.format {
        Format::Btrfs => inspect_btrfs(alloc, source, &found.block),
        Format::Reiser | Format::Neither => inspect_reiser(alloc, options, source),
    }
}

/// Checks a volume that is not one of Btrfs.
fn inspect_reiser<S: BlockSource>(
    alloc: Global,
    options: &Options,
    source: &mut S,
) -> Result<Inspected, Answer>
    requires size { IsNodeSize options.now.nodesize }
    ensures kept { S.kept source.old source.new }
    ensures cause { HasCauseOf Answer.Fault (S.faults source.old) (S.faults source.new) result }
    ensures right { OverTold S.tells (S.blocks source.old) (λ image. format_in image ≢ formats.Btrfs → MatchResult result (Inspects options.now image) (InspectRefuses image)) }
    ensures known { IfErr result IsInspectAnswer }
{
    let summary = ReiserSummary::read(alloc, options, source)?;
    Ok(Inspected::Reiser(summary))
}

/// Checks a Btrfs volume, by its block 16. What is printed of it is the same for all options of a conversion.
fn inspect_btrfs<S: BlockSource>(
    alloc: Global,
    source: &mut S,
    block: &Block,
) -> Result<Inspected, Answer>
    ensures kept { S.kept source.old source.new }
    ensures cause { HasCauseOf Answer.Fault (S.faults source.old) (S.faults source.new) result }
    ensures right { OverTold S.tells (S.blocks source.old) (λ image. format_in image ≡ formats.Btrfs → block.now.bytes ≡ block_at image SUPER_BLOCK → (o : Options) → MatchResult result (Inspects o image) (InspectRefuses image)) }
    ensures known { IfErr result IsInspectAnswer }
{
    let summary = Summary::read(alloc, source, block)?;
    Ok(Inspected::Btrfs(summary))
}
