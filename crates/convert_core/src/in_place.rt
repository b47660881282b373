// The conversion.
ghost use Rattle.std.specs.Prelude.{◌≡◌, ◌≢◌, ◌<◌, ◌^◌, Some, IfErr, IsTrue, OnOk};
ghost use Rattle.std.specs.Result.{MatchResult};
ghost use Rattle.unit_plan.specs.btr_node.NodeSize.{IsNodeSize};
ghost use Rattle.reiser_volume.specs.outside.Fault.{HasCauseOf};
ghost use Rattle.first_sync.specs.Synced.{EachCrashSynced, synced_now};
ghost use Rattle.reiser_volume.specs.outside.History.{EachCrash, IsSettled, OverTold, WritesOnly, reads};
ghost use Rattle.reiser_volume.specs.vol_block.declared.format.Format.TheVariants as formats;
ghost use Rattle.convert_core.specs.Answers.{IsConvertAnswer, RefusesConvert};
ghost use Rattle.convert_core.specs.Converted.{DiffersInFree, IsConvertPlace, IsConverted, IsEither, IsLeftByConvert};
ghost use Rattle.convert_core.specs.Surveyed.{IsSummary};
ghost use Rattle.super_turn.specs.PutBack.{IsPutBackAlone, put_back};

use crate::summary::ConvertSummary;
use crate::volume::write_volume;
use convert_steps::{Answer, FormatFound, find_format, switch_to};
use reiser_volume::{Access, Disk, Format, Ids};
use std::alloc::Global;
use super_turn::put_back;
use unit_plan::convert_options::Options;

/// Converts the ReiserFS volume of a disk to Btrfs, in place. `ids` are the identifiers that the new volume gets, and `now` is
/// the time of the conversion in seconds since the start of 1970, below 2^63.
///
/// First of all the disk is synced, so that nothing that was written before waits while the conversion writes. Where that fails nothing
/// else is done. Then a block 16 that is half turned is put back, as `recover` does, and what is said below is of the disk as it is then.
///
/// The new volume's trees, and the few blocks of files that can't stay where they lie, are written to free blocks and are on the disk before
/// the superblock is. A crash at any moment since the first sync leaves the old volume or the new one, or the old one with a
/// block 16 that is half turned, and one before it what it would have left before the call.
///
/// Whatever the answer, no block was written but block 16, and of the volume those in units that it has free and the places of the
/// superblock's copies. Nothing behind the volume was.
///
/// A refusal names what is wrong with the volume, or the space that it has not; then no block was written. Only over a
/// disk that reads a block otherwise the second time, which is then refused as damaged, may free blocks have been written. Where
/// memory ran out, only blocks in free units may have been.
pub fn convert<D: Disk>(
    alloc: Global,
    disk: &mut D,
    ids: &Ids,
    now: u64,
    options: &Options,
) -> Result<ConvertSummary, Answer>
    requires open { D.opened disk.old ≡ Some Access.Write }
    requires size { IsNodeSize options.now.nodesize }
    requires moment { now < 2 ^ 63 }
    ensures crash { EachCrashSynced D.tells (D.history disk.old) (D.history disk.new) (IsLeftByConvert options.now ids.now now (reads (D.history disk.old))) }
    ensures only { IsTrue D.tells → WritesOnly (λ b _. IsConvertPlace (put_back (reads (D.history disk.old))) b) (D.history disk.old) (D.history disk.new) }
    ensures open { D.opened disk.new ≡ D.opened disk.old }
    ensures size { D.size disk.new ≡ D.size disk.old }
    ensures converted { OverTold D.tells (reads (D.history disk.old)) (λ image.
        MatchResult result (λ s. IsConverted options.now ids.now now (put_back image) (reads (D.history disk.new)) × IsSummary options.now (put_back image) s) (RefusesConvert options.now (put_back image))) }
    ensures settled { IsTrue D.tells → OnOk result (IsSettled (D.history disk.new)) }
    ensures refused { IsTrue D.tells → IfErr result (λ e. e ≢ Answer.Fault → e ≢ Answer.Memory → IsPutBackAlone (synced_now (D.history disk.old)) (D.history disk.new)) }
    ensures memory { IsTrue D.tells → IfErr result (λ e. e ≡ Answer.Memory → DiffersInFree (put_back (reads (D.history disk.old))) (reads (D.history disk.new))) }
    ensures cause { HasCauseOf Answer.Fault (D.faults disk.old) (D.faults disk.new) result }
    ensures answers { IfErr result IsConvertAnswer }
{
    disk.sync()?;
    convert_synced(alloc, disk, ids, now, options)
}

/// The same once the disk is settled.
fn convert_synced<D: Disk>(
    alloc: Global,
    disk: &mut D,
    ids: &Ids,
    now: u64,
    options: &Options,
) -> Result<ConvertSummary, Answer>
    requires open { D.opened disk.old ≡ Some Access.Write }
    requires size { IsNodeSize options.now.nodesize }
    requires moment { now < 2 ^ 63 }
    ensures crash { EachCrash D.tells (D.history disk.old) (D.history disk.new) (IsLeftByConvert options.now ids.now now (reads (D.history disk.old))) }
    ensures only { IsTrue D.tells → WritesOnly (λ b _. IsConvertPlace (put_back (reads (D.history disk.old))) b) (D.history disk.old) (D.history disk.new) }
    ensures open { D.opened disk.new ≡ D.opened disk.old }
    ensures size { D.size disk.new ≡ D.size disk.old }
    ensures converted { OverTold D.tells (reads (D.history disk.old)) (λ image.
        MatchResult result (λ s. IsConverted options.now ids.now now (put_back image) (reads (D.history disk.new)) × IsSummary options.now (put_back image) s) (RefusesConvert options.now (put_back image))) }
    ensures settled { IsTrue D.tells → OnOk result (IsSettled (D.history disk.new)) }
    ensures refused { IsTrue D.tells → IfErr result (λ e. e ≢ Answer.Fault → e ≢ Answer.Memory → IsPutBackAlone (D.history disk.old) (D.history disk.new)) }
    ensures memory { IsTrue D.tells → IfErr result (λ e. e ≡ Answer.Memory → DiffersInFree (put_back (reads (D.history disk.old))) (reads (D.history disk.new))) }
    ensures cause { HasCauseOf Answer.Fault (D.faults disk.old) (D.faults disk.new) result }
    ensures answers { IfErr result IsConvertAnswer }
{
    put_back(disk)?;
    convert_settled(alloc, disk, ids, now, options)
}

/// The same once block 16 is put back.
fn convert_settled<D: Disk>(
    alloc: Global,
    disk: &mut D,
    ids: &Ids,
    now: u64,
    options: &Options,
) -> Result<ConvertSummary, Answer>
    requires open { D.opened disk.old ≡ Some Access.Write }
    requires size { IsNodeSize options.now.nodesize }
    requires moment { now < 2 ^ 63 }
    ensures crash { EachCrash D.tells (D.history disk.old) (D.history disk.new) (IsEither options.now ids.now now (reads (D.history disk.old))) }
    ensures only { IsTrue D.tells → WritesOnly (λ b _. IsConvertPlace (reads (D.history disk.old)) b) (D.history disk.old) (D.history disk.new) }
    ensures open { D.opened disk.new ≡ D.opened disk.old }
    ensures size { D.size disk.new ≡ D.size disk.old }
    ensures converted { OverTold D.tells (reads (D.history disk.old)) (λ image.
        MatchResult result (λ s. IsConverted options.now ids.now now image (reads (D.history disk.new)) × IsSummary options.now image s) (RefusesConvert options.now image)) }
    ensures settled { IsTrue D.tells → OnOk result (IsSettled (D.history disk.new)) }
    ensures refused { IsTrue D.tells → IfErr result (λ e. e ≢ Answer.Fault → e ≢ Answer.Memory → D.history disk.new ≡ D.history disk.old) }
    ensures memory { IsTrue D.tells → IfErr result (λ e. e ≡ Answer.Memory → DiffersInFree (reads (D.history disk.old)) (reads (D.history disk.new))) }
    ensures cause { HasCauseOf Answer.Fault (D.faults disk.old) (D.faults disk.new) result }
    ensures answers { IfErr result IsConvertAnswer }
{
    let found = find_format(disk)?;
    if is_btrfs(&found) {
        return Err(Answer::WrongFormat);
    }
    let written = write_volume(alloc, disk, ids, now, options)?;
    switch_to(disk, &written.superblock, written.copy, written.blocks)?;
    Ok(written.summary)
}

/// Whether what was found is a Btrfs volume.
fn is_btrfs(found: &FormatFound) -> bool
    ensures { (IsTrue result → found.now.format ≡ formats.Btrfs) × (found.now.format ≡ formats.Btrfs → IsTrue result) }
{
    found.format == Format::Btrfs
}
