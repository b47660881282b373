ghost use Rattle.std.specs.Prelude.{◌≡◌, ◌≤◌, ◌<◌, ◌^◌, Some, IfErr, IsTrue, OnOk};
ghost use Rattle.std.specs.Result.{MatchResult};
ghost use Rattle.reiser_bitmap.specs.outside.Fault.{HasCauseOf};
ghost use Rattle.reiser_bitmap.specs.outside.History.{IsSettled, OverTold, reads};
ghost use Rattle.first_sync.specs.Synced.{GoesOn, SyncsFirst, synced_now};
ghost use Rattle.trial_core.specs.Answers.{IsTrialAnswer, LeavesRefused, RefusesTrial};
ghost use Rattle.trial_core.specs.Trial.{IsTried, trial_summary};

use crate::TrialSummary;
use crate::making::make_sample;
use crate::round::go_round;
use crate::scratch::check_scratch;
use convert_core::Answer;
use reiser_bitmap::{Access, Disk, Ids};
use reiser_volume::rows_are_one;
use std::alloc::Global;

/// Makes the sample of a number, of at most 4000, in the first 65,536 blocks of a disk, converts it and rolls it back. The disk is then the
/// sample volume again.
///
/// The rows before and behind the conversion are compared, and the used blocks before it and behind the rollback. `ids` are the
/// identifiers that the Btrfs volume gets, and `now` is the time of the conversion in seconds since the start of 1970, below 2^63.
///
/// First of all the disk is synced; where that fails nothing else is done.
///
/// A disk with a volume of either format is refused, and then one with fewer blocks; nothing was written. Where the sample has not the
/// space for a conversion it stays on the disk. Else only a call may fail, or memory be short; then any block may have been written. A
/// disk that doesn't give back what was written is refused as damaged.
pub fn trial<D: Disk>(
    alloc: Global,
    number: u32,
    ids: &Ids,
    now: u64,
    disk: &mut D,
) -> Result<TrialSummary, Answer>
    requires number { number ≤ 4000 }
    requires open { D.opened disk.old ≡ Some Access.Write }
    requires moment { now < 2 ^ 63 }
    ensures first { IsTrue D.tells → SyncsFirst (D.history disk.old) (D.history disk.new) }
    ensures open { D.opened disk.new ≡ D.opened disk.old }
    ensures size { D.size disk.new ≡ D.size disk.old }
    ensures tried { OverTold D.tells (reads (D.history disk.old)) (λ image.
        MatchResult result (λ told. IsTried number ids.now now image (reads (D.history disk.new)) × (told ≡ trial_summary number)) (RefusesTrial number image)) }
    ensures settled { IsTrue D.tells → OnOk result (IsSettled (D.history disk.new)) }
    ensures leaves { IsTrue D.tells → IfErr result (LeavesRefused number (synced_now (D.history disk.old)) (D.history disk.new)) }
    ensures cause { HasCauseOf Answer.Fault (D.faults disk.old) (D.faults disk.new) result }
    ensures answers { IfErr result IsTrialAnswer }
{
    disk.sync()?;
    trial_settled(alloc, number, ids, now, disk)
}

/// The same once the disk is settled.
fn trial_settled<D: Disk>(
    alloc: Global,
    number: u32,
    ids: &Ids,
    now: u64,
    disk: &mut D,
) -> Result<TrialSummary, Answer>
    requires number { number ≤ 4000 }
    requires open { D.opened disk.old ≡ Some Access.Write }
    requires moment { now < 2 ^ 63 }
    ensures open { D.opened disk.new ≡ D.opened disk.old }
    ensures size { D.size disk.new ≡ D.size disk.old }
    ensures grows { IsTrue D.tells → GoesOn (D.history disk.old) (D.history disk.new) }
    ensures tried { OverTold D.tells (reads (D.history disk.old)) (λ image.
        MatchResult result (λ told. IsTried number ids.now now image (reads (D.history disk.new)) × (told ≡ trial_summary number)) (RefusesTrial number image)) }
    ensures settled { IsTrue D.tells → OnOk result (IsSettled (D.history disk.new)) }
    ensures leaves { IsTrue D.tells → IfErr result (LeavesRefused number (D.history disk.old) (D.history disk.new)) }
    ensures cause { HasCauseOf Answer.Fault (D.faults disk.old) (D.faults disk.new) result }
    ensures answers { IfErr result IsTrialAnswer }
{
    rows_are_one();
    check_scratch(disk)?;
    make_sample(alloc, number, disk)?;
    go_round(alloc, ids, now, disk)
}
