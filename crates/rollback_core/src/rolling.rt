// The rollback of a disk.
ghost use Rattle.std.specs.Prelude.{◌≡◌, ◌≢◌, Some, IfErr, IfOk, IsTrue, OnOk};
ghost use Rattle.std.specs.Result.{MatchResult};
ghost use Rattle.reiser_bitmap.specs.outside.Fault.{HasCauseOf};
ghost use Rattle.reiser_bitmap.specs.outside.History.{EachCrash, IsSettled, OverTold, reads};
ghost use Rattle.rollback_core.specs.RollbackAnswers.{IsRollbackAnswer, RefusesRollback};
ghost use Rattle.rollback_core.specs.Prepared.{IsWayBack};
ghost use Rattle.rollback_core.specs.RolledBack.{IsLeftByRollback, IsRolledBack, rollback_summary};
ghost use Rattle.rollback_core.specs.Writing.{AreWritesApart, HasRoom};
ghost use Rattle.first_sync.specs.Synced.{EachCrashSynced, GoesOn, synced_now};

use crate::prepared::prepare;
use crate::{RollbackSummary, WayBack, write_back};
use convert_steps::Answer;
use reiser_bitmap::{Access, Cached, Disk, Room};
use std::alloc::Global;

/// How many blocks are kept in memory while the volumes are read.
const CACHED: usize = 1024;

/// Turns the Btrfs volume of a disk back into the ReiserFS volume in its saved image, in place.
///
/// Each block that the old volume uses is then that of the image. Of all others only copies of the Btrfs superblock change: where the old
/// volume has their blocks without use, they become zeros. What was done to the Btrfs volume since the conversion is lost.
///
/// First of all the disk is synced, so that nothing that was written before waits while it is written; where that fails nothing else is
/// done. All is read and decided, and all memory is taken, before the first write. A refusal names what stands in the way; then no block
/// was written, and none after want of memory. A crash at any moment since the first sync leaves the Btrfs volume, each block that it has
/// in use as it was, so that it has the same rows and can be rolled back again, or the old one; and one before it what it would have left
/// before the call.
pub fn rollback<D: Disk>(alloc: Global, disk: &mut D) -> Result<RollbackSummary, Answer>
    requires open { D.opened disk.old ≡ Some Access.Write }
    ensures crash { EachCrashSynced D.tells (D.history disk.old) (D.history disk.new) (IsLeftByRollback (reads (D.history disk.old))) }
    ensures open { D.opened disk.new ≡ D.opened disk.old }
    ensures size { D.size disk.new ≡ D.size disk.old }
    ensures borrow { D.borrow disk.new ≡ D.borrow disk.old }
    ensures rolled_back { OverTold D.tells (reads (D.history disk.old)) (λ image.
        MatchResult result (λ told. IsRolledBack image (reads (D.history disk.new)) × (told ≡ rollback_summary image)) (RefusesRollback image)) }
    ensures settled { IsTrue D.tells → OnOk result (IsSettled (D.history disk.new)) }
    ensures refused { IsTrue D.tells → IfErr result (λ e. e ≢ Answer.Fault → D.history disk.new ≡ synced_now (D.history disk.old)) }
    ensures cause { HasCauseOf Answer.Fault (D.faults disk.old) (D.faults disk.new) result }
    ensures answers { IfErr result IsRollbackAnswer }
{
    disk.sync()?;
    rollback_settled(alloc, disk)
}

/// The same once the disk is settled.
fn rollback_settled<D: Disk>(alloc: Global, disk: &mut D) -> Result<RollbackSummary, Answer>
    requires open { D.opened disk.old ≡ Some Access.Write }
    ensures crash { EachCrash D.tells (D.history disk.old) (D.history disk.new) (IsLeftByRollback (reads (D.history disk.old))) }
    ensures grows { IsTrue D.tells → GoesOn (D.history disk.old) (D.history disk.new) }
    ensures open { D.opened disk.new ≡ D.opened disk.old }
    ensures size { D.size disk.new ≡ D.size disk.old }
    ensures borrow { D.borrow disk.new ≡ D.borrow disk.old }
    ensures rolled_back { OverTold D.tells (reads (D.history disk.old)) (λ image.
        MatchResult result (λ told. IsRolledBack image (reads (D.history disk.new)) × (told ≡ rollback_summary image)) (RefusesRollback image)) }
    ensures settled { IsTrue D.tells → OnOk result (IsSettled (D.history disk.new)) }
    ensures refused { IsTrue D.tells → IfErr result (λ e. e ≢ Answer.Fault → D.history disk.new ≡ D.history disk.old) }
    ensures cause { HasCauseOf Answer.Fault (D.faults disk.old) (D.faults disk.new) result }
    ensures answers { IfErr result IsRollbackAnswer }
{
    let way = read_way(alloc, disk)?;
    write_back(disk, &way)?;
    Ok(way.summary)
}

/// What is to be written, read through a cache.
fn read_way<D: Disk>(alloc: Global, disk: &mut D) -> Result<WayBack, Answer>
    ensures kept { D.kept disk.old disk.new }
    ensures prepared { OverTold D.tells (D.blocks disk.old) (λ image. MatchResult result (IsWayBack image) (RefusesRollback image)) }
    ensures room { IfOk result (HasRoom (D.size disk.old)) }
    ensures apart { IfOk result AreWritesApart }
    ensures cause { HasCauseOf Answer.Fault (D.faults disk.old) (D.faults disk.new) result }
    ensures answers { IfErr result IsRollbackAnswer }
{
    let mut room = Room::new(alloc, CACHED)?;
    let mut cached = Cached::new(disk, &mut room);
    prepare(alloc, &mut cached)
}
