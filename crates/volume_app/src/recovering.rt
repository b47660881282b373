ghost use Rattle.std.specs.Prelude.{◌≡◌, ◌≢◌, None, IfErr, IsTrue, OnOk};
ghost use Rattle.std.specs.Result.{MatchResult};
ghost use Rattle.reiser_volume.specs.outside.Fault.{HasCause, HasCauseOf, Takes};
ghost use Rattle.first_sync.specs.Synced.{EachCrashSynced, synced_now};
ghost use Rattle.reiser_volume.specs.outside.History.{IsSettled, reads};
ghost use Rattle.rollback_core.specs.RecoveryAnswers.{IsRecoverAnswer, RefusesRecover};
ghost use Rattle.rollback_core.specs.Recovered.{IsLeftByRecovery, IsRecovered, RewritesBeforeCopies, recover_summary};
ghost use Rattle.super_turn.specs.PutBack.{IsPutBackAlone, put_back};
ghost use Rattle.volume_app.specs.Outcome.{Performs};
ghost use Rattle.volume_app.specs.Recovering.{format_word, recover_meaning, recover_text};

use crate::ending::{Ending, printed};
use convert_core::Answer;
use reiser_volume::{Access, Disk, Fault, Format, Sink};
use rollback_core::{RecoverSummary, recovery_keeps, recovery_opens};
use sink_text::TextPart::{Decimal, Plain};
use sink_text::write_pieces;
use std::alloc::Global;
use volume_state::spare_blocks_decide_nothing;

/// Finishes what was interrupted on the volume at a path, and prints its format and what was written.
pub fn recover_volume<D: Disk, O: Sink>(
    alloc: Global,
    path: &str,
    disk: &mut D,
    out: &mut O,
) -> Ending
    requires closed { D.opened disk.old ≡ None }
    requires wanted { D.wants path.now Access.Write }
    ensures { Performs recover_meaning D.tells (D.history disk.old) (D.history disk.new) (D.faults disk.old) (D.faults disk.new)
        O.tells (O.taken out.old) (O.taken out.new) (O.faults out.old) (O.faults out.new) result }
{
    recovery_keeps();
    recovery_opens();
    spare_blocks_decide_nothing();
    match recover(alloc, path, disk) {
        Ok(told) => printed(print_recovered(&told, out)),
        Err(answer) => Ending::Failed(answer),
    }
}

/// Opens the disk at a path for writing, and recovers it.
fn recover<D: Disk>(alloc: Global, path: &str, disk: &mut D) -> Result<RecoverSummary, Answer>
    requires closed { D.opened disk.old ≡ None }
    requires wanted { D.wants path.now Access.Write }
    ensures crash { EachCrashSynced D.tells (D.history disk.old) (D.history disk.new) (IsLeftByRecovery (reads (D.history disk.old))) }
    ensures right { IsTrue D.tells → MatchResult result (λ told. IsRecovered (put_back (reads (D.history disk.old))) (reads (D.history disk.new)) × (told ≡ recover_summary (put_back (reads (D.history disk.old)))))
        (RefusesRecover (put_back (reads (D.history disk.old)))) }
    ensures order { IsTrue D.tells → RewritesBeforeCopies (D.history disk.old) (D.history disk.new) }
    ensures settled { IsTrue D.tells → OnOk result (IsSettled (D.history disk.new)) }
    ensures refused { IsTrue D.tells → IfErr result (λ e. e ≢ Answer.Fault → IsPutBackAlone (synced_now (D.history disk.old)) (D.history disk.new)) }
    ensures cause { HasCauseOf Answer.Fault (D.faults disk.old) (D.faults disk.new) result }
    ensures known { IfErr result IsRecoverAnswer }
{
    disk.open(path, Access::Write)?;
    rollback_core::recover(alloc, disk)
}

/// Prints what a recovery found and did.
fn print_recovered<O: Sink>(told: &RecoverSummary, out: &mut O) -> Result<(), Fault>
    ensures taken { IsTrue O.tells → Takes (O.taken out.old) (recover_text told.now) result (O.taken out.new) }
    ensures cause { HasCause (O.faults out.old) (O.faults out.new) result }
{
    let pieces = [
        Plain(b"volume is "),
        Plain(format_word(told.format)),
        Plain(b"\nmirrors "),
        Decimal(told.mirrors),
        Plain(b"\n"),
    ];
    write_pieces(&pieces, out)
}

/// The word for a format.
fn format_word(format: Format) -> &'static [u8]
    ensures { result.now ≡ format_word format }
{
    match format {
        Format::Reiser => b"reiserfs",
        Format::Btrfs => b"btrfs",
        Format::Neither => b"neither",
    }
}
