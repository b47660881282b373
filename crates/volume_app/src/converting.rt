ghost use Rattle.std.specs.Prelude.{◌≡◌, ◌≢◌, ◌<◌, ◌^◌, None, IfErr, IsTrue, OnOk};
ghost use Rattle.std.specs.Result.{MatchResult};
ghost use Rattle.btr_reader.specs.btr_node.NodeSize.{IsNodeSize};
ghost use Rattle.convert_core.specs.Answers.{IsConvertAnswer, RefusesConvert};
ghost use Rattle.convert_core.specs.Converted.{DiffersInFree, IsConverted, IsLeftByConvert};
ghost use Rattle.convert_core.specs.Surveyed.{IsSummary};
ghost use Rattle.reiser_volume.specs.outside.Fault.{HasCause, HasCauseOf, Takes};
ghost use Rattle.first_sync.specs.Synced.{EachCrashSynced, synced_now};
ghost use Rattle.reiser_volume.specs.outside.History.{IsSettled, reads};
ghost use Rattle.super_turn.specs.PutBack.{IsPutBackAlone, put_back};
ghost use Rattle.volume_app.specs.Converting.{WritesConvertPlaces, convert_meaning, convert_text};
ghost use Rattle.volume_app.specs.Outcome.{Performs};
ghost use Rattle.volume_app.specs.Trees.{HasId};
ghost use Rattle.convert_core.specs.space_items.Laws.{AreIds};

use crate::ending::{Ending, printed};
use convert_core::{Answer, ConvertSummary};
use convert_core_laws::{
    converted_data_stays, converted_volumes_are_sound, converted_volumes_go_back,
    converted_volumes_open,
};
use reiser_volume::{Access, Disk, Fault, Ids, Sink, used_blocks_decide};
use sink_text::TextPart::{Decimal, Plain};
use sink_text::write_pieces;
use std::alloc::Global;
use unit_plan::convert_options::{Options, UuidChoice};

/// Converts the ReiserFS volume at a path, and prints what was done.
pub fn convert_volume<D: Disk, O: Sink>(
    alloc: Global,
    path: &str,
    ids: &Ids,
    now: u64,
    options: &Options,
    disk: &mut D,
    out: &mut O,
) -> Ending
    requires closed { D.opened disk.old ≡ None }
    requires wanted { D.wants path.now Access.Write }
    requires size { IsNodeSize options.now.nodesize }
    requires moment { now < 2 ^ 63 }
    ensures { Performs (convert_meaning ids.now now options.now) D.tells (D.history disk.old) (D.history disk.new) (D.faults disk.old) (D.faults disk.new)
        O.tells (O.taken out.old) (O.taken out.new) (O.faults out.old) (O.faults out.new) result }
{
    converted_volumes_open();
    converted_volumes_go_back();
    converted_volumes_are_sound();
    converted_data_stays();
    used_blocks_decide();
    know_ids(*ids);
    know_id(options.uuid);
    match convert(alloc, path, ids, now, options, disk) {
        Ok(summary) => printed(print_summary(&summary, out)),
        Err(answer) => Ending::Failed(answer),
    }
}

/// Identifiers have 16 bytes each. It does nothing: its caller learns it by the contract.
pub fn know_ids(ids: Ids)
    ensures { AreIds ids }
{
    let _value = ids;
}

/// An identifier that is given has 16 bytes. It does nothing: its caller learns it by the contract.
fn know_id(choice: UuidChoice)
    ensures { HasId choice }
{
    let _value = choice;
}

/// Opens the disk at a path for writing, and converts its volume.
fn convert<D: Disk>(
    alloc: Global,
    path: &str,
    ids: &Ids,
    now: u64,
    options: &Options,
    disk: &mut D,
) -> Result<ConvertSummary, Answer>
    requires closed { D.opened disk.old ≡ None }
    requires wanted { D.wants path.now Access.Write }
    requires size { IsNodeSize options.now.nodesize }
    requires moment { now < 2 ^ 63 }
    ensures crash { EachCrashSynced D.tells (D.history disk.old) (D.history disk.new) (IsLeftByConvert options.now ids.now now (reads (D.history disk.old))) }
    ensures only { IsTrue D.tells → WritesConvertPlaces (D.history disk.old) (D.history disk.new) }
    ensures right { IsTrue D.tells → MatchResult result (λ s. IsConverted options.now ids.now now (put_back (reads (D.history disk.old))) (reads (D.history disk.new)) × IsSummary options.now (put_back (reads (D.history disk.old))) s)
        (RefusesConvert options.now (put_back (reads (D.history disk.old)))) }
    ensures settled { IsTrue D.tells → OnOk result (IsSettled (D.history disk.new)) }
    ensures refused { IsTrue D.tells → IfErr result (λ e. e ≢ Answer.Fault → e ≢ Answer.Memory → IsPutBackAlone (synced_now (D.history disk.old)) (D.history disk.new)) }
    ensures memory { IsTrue D.tells → IfErr result (λ e. e ≡ Answer.Memory → DiffersInFree (put_back (reads (D.history disk.old))) (reads (D.history disk.new))) }
    ensures cause { HasCauseOf Answer.Fault (D.faults disk.old) (D.faults disk.new) result }
    ensures known { IfErr result IsConvertAnswer }
{
    disk.open(path, Access::Write)?;
    convert_core::convert(alloc, disk, ids, now, options)
}

/// Prints what a conversion did.
fn print_summary<O: Sink>(told: &ConvertSummary, out: &mut O) -> Result<(), Fault>
    ensures taken { IsTrue O.tells → Takes (O.taken out.old) (convert_text told.now) result (O.taken out.new) }
    ensures cause { HasCause (O.faults out.old) (O.faults out.new) result }
{
    let pieces = [
        Plain(b"converted to btrfs\npieces "),
        Decimal(told.pieces),
        Plain(b"\nblocks "),
        Decimal(told.blocks),
        Plain(b"\ncopied "),
        Decimal(told.copied),
        Plain(b"\ntails "),
        Decimal(told.tails),
        Plain(b"\nunits "),
        Decimal(told.units),
        Plain(b"\n"),
    ];
    write_pieces(&pieces, out)
}
