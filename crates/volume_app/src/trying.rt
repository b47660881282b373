ghost use Rattle.std.specs.Prelude.{◌≡◌, ◌≤◌, ◌<◌, ◌^◌, None, IfErr, IsTrue, OnOk};
ghost use Rattle.std.specs.Result.{MatchResult};
ghost use Rattle.reiser_volume.specs.outside.Fault.{HasCause, HasCauseOf, Takes};
ghost use Rattle.first_sync.specs.Synced.{SyncsFirst, synced_now};
ghost use Rattle.reiser_volume.specs.outside.History.{IsSettled, reads};
ghost use Rattle.trial_core.specs.Answers.{IsTrialAnswer, LeavesRefused, RefusesTrial};
ghost use Rattle.trial_core.specs.Trial.{IsTried, trial_summary};
ghost use Rattle.volume_app.specs.Outcome.{Performs};
ghost use Rattle.volume_app.specs.Trying.{trial_meaning, trial_text};

use crate::converting::know_ids;
use crate::ending::{Ending, printed};
use convert_core::Answer;
use reiser_volume::{Access, Disk, Fault, Ids, Sink};
use sink_text::TextPart::{Decimal, Plain};
use sink_text::write_pieces;
use std::alloc::Global;
use trial_core::{TrialSummary, tries_keep};

/// Makes the sample of a number on the device at a path, converts it and rolls it back, and prints what was seen.
pub fn try_on_path<D: Disk, O: Sink>(
    alloc: Global,
    path: &str,
    number: u32,
    ids: &Ids,
    now: u64,
    disk: &mut D,
    out: &mut O,
) -> Ending
    requires closed { D.opened disk.old ≡ None }
    requires wanted { D.wants path.now Access.Write }
    requires number { number ≤ 4000 }
    requires moment { now < 2 ^ 63 }
    ensures { Performs (trial_meaning ids.now now number) D.tells (D.history disk.old) (D.history disk.new) (D.faults disk.old) (D.faults disk.new)
        O.tells (O.taken out.old) (O.taken out.new) (O.faults out.old) (O.faults out.new) result }
{
    tries_keep();
    know_ids(*ids);
    match tried(alloc, path, number, ids, now, disk) {
        Ok(told) => printed(print_tried(number, &told, out)),
        Err(answer) => Ending::Failed(answer),
    }
}

/// Opens the disk at a path for writing, and does the trial on it.
fn tried<D: Disk>(
    alloc: Global,
    path: &str,
    number: u32,
    ids: &Ids,
    now: u64,
    disk: &mut D,
) -> Result<TrialSummary, Answer>
    requires closed { D.opened disk.old ≡ None }
    requires wanted { D.wants path.now Access.Write }
    requires number { number ≤ 4000 }
    requires moment { now < 2 ^ 63 }
    ensures first { IsTrue D.tells → SyncsFirst (D.history disk.old) (D.history disk.new) }
    ensures right { IsTrue D.tells → MatchResult result (λ told. IsTried number ids.now now (reads (D.history disk.old)) (reads (D.history disk.new)) × (told ≡ trial_summary number))
        (RefusesTrial number (reads (D.history disk.old))) }
    ensures settled { IsTrue D.tells → OnOk result (IsSettled (D.history disk.new)) }
    ensures leaves { IsTrue D.tells → IfErr result (LeavesRefused number (synced_now (D.history disk.old)) (D.history disk.new)) }
    ensures cause { HasCauseOf Answer.Fault (D.faults disk.old) (D.faults disk.new) result }
    ensures known { IfErr result IsTrialAnswer }
{
    disk.open(path, Access::Write)?;
    trial_core::trial(alloc, number, ids, now, disk)
}

/// Prints what a trial saw.
fn print_tried<O: Sink>(number: u32, told: &TrialSummary, out: &mut O) -> Result<(), Fault>
    ensures taken { IsTrue O.tells → Takes (O.taken out.old) (trial_text number told.now) result (O.taken out.new) }
    ensures cause { HasCause (O.faults out.old) (O.faults out.new) result }
{
    let pieces = [
        Plain(b"trial "),
        Decimal(u64::from(number)),
        Plain(b"\nrows "),
        Decimal(told.rows),
        Plain(b"\nbytes "),
        Decimal(told.bytes),
        Plain(b"\nconverted\nsame rows\nrolled back\nsame blocks\n"),
    ];
    write_pieces(&pieces, out)
}
