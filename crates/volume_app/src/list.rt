ghost use Rattle.std.specs.Prelude.{◌≡◌, ◌≢◌, None, IfErr, IsTrue};
ghost use Rattle.std.specs.Result.{MatchResult};
ghost use Rattle.reiser_volume.specs.outside.Fault.{HasCauseOf};
ghost use Rattle.reiser_volume.specs.outside.History.{block_at, reads, OverTold};
ghost use Rattle.reiser_volume.specs.vol_block.declared.format.Format.TheVariants as formats;
ghost use Rattle.reiser_volume.specs.outside.Format.{format_in};
ghost use Rattle.convert_core.specs.convert_steps.Found.{IsFoundOn};
ghost use Rattle.volume_app.specs.Listing.{Lists, ListRefuses, IsListAnswer, list_meaning};
ghost use Rattle.volume_app.specs.Outcome.{Performs};

use crate::ending::{Ending, printed};
use crate::format::open_format;
use crate::reiser::reiser_rows;
use btr_reader::Btrfs;
use btr_reader::btrfs_format::block::SUPER_BLOCK;
use convert_core::{Answer, FormatFound};
use reiser_volume::fs_rows::{Rows, write_rows};
use reiser_volume::{Access, Block, BlockSource, Disk, Format, Sink};
use std::alloc::Global;

/// Lists the volume at a path: prints a line for each of its paths.
pub fn list_volume<D: Disk, O: Sink>(alloc: Global, path: &str, disk: &mut D, out: &mut O) -> Ending
    requires closed { D.opened disk.old ≡ None }
    requires wanted { D.wants path.now Access.Read }
    ensures { Performs list_meaning D.tells (D.history disk.old) (D.history disk.new) (D.faults disk.old) (D.faults disk.new)
        O.tells (O.taken out.old) (O.taken out.new) (O.faults out.old) (O.faults out.new) result }
{
    match list(alloc, path, disk) {
        Ok(rows) => printed(write_rows(&rows, out)),
        Err(answer) => Ending::Failed(answer),
    }
}

/// Opens the disk for reading, checks the volume, and makes its rows.
fn list<D: Disk>(alloc: Global, path: &str, disk: &mut D) -> Result<Rows, Answer>
    requires closed { D.opened disk.old ≡ None }
    requires wanted { D.wants path.now Access.Read }
    ensures unchanged { IsTrue D.tells → D.history disk.new ≡ D.history disk.old }
    ensures cause { HasCauseOf Answer.Fault (D.faults disk.old) (D.faults disk.new) result }
    ensures right { IsTrue D.tells → MatchResult result (Lists (reads (D.history disk.old))) (ListRefuses (reads (D.history disk.old))) }
    ensures known { IfErr result IsListAnswer }
{
    let found = open_format(path, disk)?;
    list_as(&found, alloc, disk)
}

/// The rows of a volume of the format that was found.
fn list_as<S: BlockSource>(
    found: &FormatFound,
    alloc: Global,
    source: &mut S,
) -> Result<Rows, Answer>
    ensures kept { S.kept source.old source.new }
    ensures cause { HasCauseOf Answer.Fault (S.faults source.old) (S.faults source.new) result }
    ensures right { OverTold S.tells (S.blocks source.old) (λ image. IsFoundOn image found.now → MatchResult result (Lists image) (ListRefuses image)) }
    ensures known { IfErr result IsListAnswer }
{
    match found.format {
        Format::Btrfs => list_btrfs(alloc, source, &found.block),
        Format::Reiser | Format::Neither => list_reiser(alloc, source),
    }
}

/// The rows of a volume that is not one of Btrfs.
fn list_reiser<S: BlockSource>(alloc: Global, source: &mut S) -> Result<Rows, Answer>
    ensures kept { S.kept source.old source.new }
    ensures cause { HasCauseOf Answer.Fault (S.faults source.old) (S.faults source.new) result }
    ensures right { OverTold S.tells (S.blocks source.old) (λ image. format_in image ≢ formats.Btrfs → MatchResult result (Lists image) (ListRefuses image)) }
    ensures known { IfErr result IsListAnswer }
{
    Ok(reiser_rows(alloc, source)?)
}

/// The rows of a Btrfs volume, by its block 16.
fn list_btrfs<S: BlockSource>(alloc: Global, source: &mut S, block: &Block) -> Result<Rows, Answer>
    ensures kept { S.kept source.old source.new }
    ensures cause { HasCauseOf Answer.Fault (S.faults source.old) (S.faults source.new) result }
    ensures right { OverTold S.tells (S.blocks source.old) (λ image. format_in image ≡ formats.Btrfs → block.now.bytes ≡ block_at image SUPER_BLOCK → MatchResult result (Lists image) (ListRefuses image)) }
    ensures known { IfErr result IsListAnswer }
{
    Ok(Btrfs::list(alloc, source, block)?)
}
