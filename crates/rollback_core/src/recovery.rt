// The recovery of a disk.
ghost use Rattle.std.specs.Prelude.{◌≡◌, ◌≢◌, false, Some, IfErr, IfOk, IsTrue, OnOk};
ghost use Rattle.std.specs.Result.{MatchResult};
ghost use Rattle.reiser_bitmap.specs.outside.Fault.{HasCauseOf};
ghost use Rattle.first_sync.specs.Synced.{EachCrashSynced, synced_now};
ghost use Rattle.reiser_bitmap.specs.outside.History.{EachCrash, IsSettled, OverTold, WritesOnly, reads};
ghost use Rattle.rollback_core.specs.RecoveryAnswers.{IsRecoverAnswer, RefusesRecover};
ghost use Rattle.rollback_core.specs.Recovered.{IsLeftByRecover, IsLeftByRecovery, IsMend, IsRecoverWrite, IsRecovered, PutsBackFirst, RewritesBeforeCopies, RewritesFirst, recover_summary};
ghost use Rattle.super_turn.specs.PutBack.{IsPutBackAlone, is_half_turned, put_back};

use crate::mending::plan;
use crate::writing::write_mending;
use convert_steps::Answer;
use reiser_bitmap::{Access, Disk, Format};
use std::alloc::Global;
use super_turn::put_back;

/// What a recovery found and did.
#[derive(Clone, Copy, Debug, PartialEq, Eq)]
pub struct RecoverSummary {
    /// The format of the volume, which it keeps.
    pub format: Format,
    /// The blocks that were written: those of copies of a Btrfs superblock.
    pub mirrors: u64,
}

/// Completes what a crash may have cut off of a switch between the two formats. The format of the volume is that of block 16.
///
/// Where block 16 is half turned it is put back: it becomes the block that its mark names. On a Btrfs volume each block of a copy that the volume
/// has, at 64 MiB and at 256 GiB, becomes the copy of the superblock. On a ReiserFS volume each of them that the bitmap does not mark as used and
/// that holds the magic of a Btrfs superblock becomes zeros. Only blocks that differ are written.
///
/// First of all the disk is synced; where that fails nothing else is done. Where a copy is to be written, block 16 is written first, as it
/// was read, and synced: a copy may lie where the other format has data, so it is to follow that format alone which has reached the
/// device. Where none is, and block 16 is not half turned, nothing is written. So a second recovery writes nothing, unless the block that was put
/// back has a mark of its own.
///
/// A refusal names what is wrong with the superblock, and of a ReiserFS volume with its journal or its bitmap; then nothing was
/// written but a block 16 that was put back. Memory is taken for the bitmap alone, so a Btrfs volume needs none.
pub fn recover<D: Disk>(alloc: Global, disk: &mut D) -> Result<RecoverSummary, Answer>
    requires open { D.opened disk.old ≡ Some Access.Write }
    ensures crash { EachCrashSynced D.tells (D.history disk.old) (D.history disk.new) (IsLeftByRecovery (reads (D.history disk.old))) }
    ensures open { D.opened disk.new ≡ D.opened disk.old }
    ensures size { D.size disk.new ≡ D.size disk.old }
    ensures borrow { D.borrow disk.new ≡ D.borrow disk.old }
    ensures only { IsTrue D.tells → WritesOnly (IsRecoverWrite (reads (D.history disk.old))) (D.history disk.old) (D.history disk.new) }
    ensures order { IsTrue D.tells → RewritesBeforeCopies (D.history disk.old) (D.history disk.new) }
    ensures recovered { OverTold D.tells (reads (D.history disk.old)) (λ image.
        MatchResult result (λ told. IsRecovered (put_back image) (reads (D.history disk.new)) × (told ≡ recover_summary (put_back image))) (RefusesRecover (put_back image))) }
    ensures unwritten { IsTrue D.tells → is_half_turned (reads (D.history disk.old)) ≡ false → IfOk result (λ told. told.mirrors ≡ 0 → D.history disk.new ≡ synced_now (D.history disk.old)) }
    ensures settled { IsTrue D.tells → OnOk result (IsSettled (D.history disk.new)) }
    ensures refused { IsTrue D.tells → IfErr result (λ e. e ≢ Answer.Fault → IsPutBackAlone (synced_now (D.history disk.old)) (D.history disk.new)) }
    ensures cause { HasCauseOf Answer.Fault (D.faults disk.old) (D.faults disk.new) result }
    ensures answers { IfErr result IsRecoverAnswer }
{
    disk.sync()?;
    recover_synced(alloc, disk)
}

/// The same once the disk is settled.
fn recover_synced<D: Disk>(alloc: Global, disk: &mut D) -> Result<RecoverSummary, Answer>
    requires open { D.opened disk.old ≡ Some Access.Write }
    ensures crash { EachCrash D.tells (D.history disk.old) (D.history disk.new) (IsLeftByRecovery (reads (D.history disk.old))) }
    ensures open { D.opened disk.new ≡ D.opened disk.old }
    ensures size { D.size disk.new ≡ D.size disk.old }
    ensures borrow { D.borrow disk.new ≡ D.borrow disk.old }
    ensures order { IsTrue D.tells → PutsBackFirst (D.history disk.old) (D.history disk.new) }
    ensures recovered { OverTold D.tells (reads (D.history disk.old)) (λ image.
        MatchResult result (λ told. IsRecovered (put_back image) (reads (D.history disk.new)) × (told ≡ recover_summary (put_back image))) (RefusesRecover (put_back image))) }
    ensures unwritten { IsTrue D.tells → is_half_turned (reads (D.history disk.old)) ≡ false → IfOk result (λ told. told.mirrors ≡ 0 → D.history disk.new ≡ D.history disk.old) }
    ensures settled { IsTrue D.tells → IsSettled (D.history disk.old) → OnOk result (IsSettled (D.history disk.new)) }
    ensures refused { IsTrue D.tells → IfErr result (λ e. e ≢ Answer.Fault → IsPutBackAlone (D.history disk.old) (D.history disk.new)) }
    ensures cause { HasCauseOf Answer.Fault (D.faults disk.old) (D.faults disk.new) result }
    ensures answers { IfErr result IsRecoverAnswer }
{
    put_back(disk)?;
    recover_settled(alloc, disk)
}

/// The same once block 16 is put back.
fn recover_settled<D: Disk>(alloc: Global, disk: &mut D) -> Result<RecoverSummary, Answer>
    requires open { D.opened disk.old ≡ Some Access.Write }
    ensures crash { EachCrash D.tells (D.history disk.old) (D.history disk.new) (IsLeftByRecover (reads (D.history disk.old))) }
    ensures open { D.opened disk.new ≡ D.opened disk.old }
    ensures size { D.size disk.new ≡ D.size disk.old }
    ensures borrow { D.borrow disk.new ≡ D.borrow disk.old }
    ensures order { IsTrue D.tells → RewritesFirst (IsMend (reads (D.history disk.old))) (D.history disk.old) (D.history disk.new) }
    ensures recovered { OverTold D.tells (reads (D.history disk.old)) (λ image.
        MatchResult result (λ told. IsRecovered image (reads (D.history disk.new)) × (told ≡ recover_summary image)) (RefusesRecover image)) }
    ensures unwritten { IsTrue D.tells → IfOk result (λ told. told.mirrors ≡ 0 → D.history disk.new ≡ D.history disk.old) }
    ensures settled { IsTrue D.tells → IfOk result (λ told. told.mirrors ≢ 0 → IsSettled (D.history disk.new)) }
    ensures refused { IsTrue D.tells → IfErr result (λ e. e ≢ Answer.Fault → D.history disk.new ≡ D.history disk.old) }
    ensures cause { HasCauseOf Answer.Fault (D.faults disk.old) (D.faults disk.new) result }
    ensures answers { IfErr result IsRecoverAnswer }
{
    let mending = plan(alloc, disk)?;
    let mirrors = write_mending(disk, &mending)?;
    Ok(RecoverSummary {
        format: mending.format,
        mirrors,
    })
}
