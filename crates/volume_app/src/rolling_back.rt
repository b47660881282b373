ghost use Rattle.std.specs.Prelude.{◌≡◌, ◌≢◌, None, IfErr, IsTrue, OnOk};
ghost use Rattle.std.specs.Result.{MatchResult};
ghost use Rattle.reiser_volume.specs.outside.Fault.{HasCause, HasCauseOf, Takes};
ghost use Rattle.first_sync.specs.Synced.{EachCrashSynced, synced_now};
ghost use Rattle.reiser_volume.specs.outside.History.{IsSettled, reads};
ghost use Rattle.rollback_core.specs.RollbackAnswers.{IsRollbackAnswer, RefusesRollback};
ghost use Rattle.rollback_core.specs.RolledBack.{IsLeftByRollback, IsRolledBack, rollback_summary};
ghost use Rattle.volume_app.specs.Outcome.{Performs};
ghost use Rattle.volume_app.specs.RollingBack.{rollback_meaning, rollback_text};

use crate::ending::{Ending, printed};
use convert_core::Answer;
use reiser_volume::{Access, Disk, Fault, Sink};
use rollback_core::{RollbackSummary, rollback_keeps};
use sink_text::TextPart::{Decimal, Plain};
use sink_text::write_pieces;
use std::alloc::Global;

/// Turns the Btrfs volume at a path back into the ReiserFS volume that it was made from, and prints what was restored.
pub fn roll_back_volume<D: Disk, O: Sink>(
    alloc: Global,
    path: &str,
    disk: &mut D,
    out: &mut O,
) -> Ending
    requires closed { D.opened disk.old ≡ None }
    requires wanted { D.wants path.now Access.Write }
    ensures { Performs rollback_meaning D.tells (D.history disk.old) (D.history disk.new) (D.faults disk.old) (D.faults disk.new)
        O.tells (O.taken out.old) (O.taken out.new) (O.faults out.old) (O.faults out.new) result }
{
    rollback_keeps();
    match roll_back(alloc, path, disk) {
        Ok(told) => printed(print_rolled_back(&told, out)),
        Err(answer) => Ending::Failed(answer),
    }
}

/// Opens the disk at a path for writing, and rolls its volume back.
fn roll_back<D: Disk>(alloc: Global, path: &str, disk: &mut D) -> Result<RollbackSummary, Answer>
    requires closed { D.opened disk.old ≡ None }
    requires wanted { D.wants path.now Access.Write }
    ensures crash { EachCrashSynced D.tells (D.history disk.old) (D.history disk.new) (IsLeftByRollback (reads (D.history disk.old))) }
    ensures right { IsTrue D.tells → MatchResult result (λ told. IsRolledBack (reads (D.history disk.old)) (reads (D.history disk.new)) × (told ≡ rollback_summary (reads (D.history disk.old))))
        (RefusesRollback (reads (D.history disk.old))) }
    ensures settled { IsTrue D.tells → OnOk result (IsSettled (D.history disk.new)) }
    ensures refused { IsTrue D.tells → IfErr result (λ e. e ≢ Answer.Fault → D.history disk.new ≡ synced_now (D.history disk.old)) }
    ensures cause { HasCauseOf Answer.Fault (D.faults disk.old) (D.faults disk.new) result }
    ensures known { IfErr result IsRollbackAnswer }
{
    disk.open(path, Access::Write)?;
    rollback_core::rollback(alloc, disk)
}

/// Prints what a rollback did.
fn print_rolled_back<O: Sink>(told: &RollbackSummary, out: &mut O) -> Result<(), Fault>
    ensures taken { IsTrue O.tells → Takes (O.taken out.old) (rollback_text told.now) result (O.taken out.new) }
    ensures cause { HasCause (O.faults out.old) (O.faults out.new) result }
{
    let pieces = [
        Plain(b"rolled back to reiserfs\nblocks "),
        Decimal(told.blocks),
        Plain(b"\nrestored "),
        Decimal(told.restored),
        Plain(b"\n"),
    ];
    write_pieces(&pieces, out)
}
