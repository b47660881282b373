// The blocks of the copies of a Btrfs superblock are written.
ghost use Rattle.std.specs.Prelude.{◌≡◌, ◌≢◌, ◌+◌, ◌<◌, true, is_some, Some, IfOk, IsTrue, OnOk};
ghost use Rattle.reiser_bitmap.specs.outside.Fault.{HasCause};
ghost use Rattle.reiser_bitmap.specs.outside.History.{IsSettled, WritesOnly, block_at, reads};
ghost use Rattle.rollback_core.specs.Mending.{given};
ghost use Rattle.rollback_core.specs.Planned.{HasMendingRoom, IsGiven, IsGivenAt, MendingStands, writes_of};
ghost use Rattle.rollback_core.specs.Recovered.{IsRewrite, RewritesFirst, rewritten};

use crate::mending::Mending;
use crate::saved::read_block;
use btr_reader::btrfs_format::block::{FIRST_MIRROR, SECOND_MIRROR, SUPER_BLOCK};
use reiser_bitmap::{Access, Block, BlockNo, Disk, Fault};

/// Writes what is to be written, where that is anything: first block 16 again, as it stands, and a sync; then the blocks of copies, and a
/// sync. The number of blocks of copies that were written.
pub fn write_mending<D: Disk>(disk: &mut D, mending: &Mending) -> Result<u64, Fault>
    requires open { D.opened disk.old ≡ Some Access.Write }
    requires room { HasMendingRoom (D.size disk.old) mending.now }
    ensures open { D.opened disk.new ≡ D.opened disk.old }
    ensures size { D.size disk.new ≡ D.size disk.old }
    ensures borrow { D.borrow disk.new ≡ D.borrow disk.old }
    ensures order { IsTrue D.tells → RewritesFirst (IsGiven mending.now) (D.history disk.old) (D.history disk.new) }
    ensures written { IsTrue D.tells → OnOk result (MendingStands mending.now (reads (D.history disk.old)) (reads (D.history disk.new))) }
    ensures count { IfOk result (λ n. n ≡ writes_of mending.now.first + writes_of mending.now.second) }
    ensures unwritten { IsTrue D.tells → IfOk result (λ n. n ≡ 0 → D.history disk.new ≡ D.history disk.old) }
    ensures settled { IsTrue D.tells → IfOk result (λ n. n ≢ 0 → IsSettled (D.history disk.new)) }
    ensures cause { HasCause (D.faults disk.old) (D.faults disk.new) result }
{
    let count = count_of(&mending.first) + count_of(&mending.second);
    if count == 0 {
        return Ok(0);
    }
    write_again(disk)?;
    write_given(disk, FIRST_MIRROR, &mending.first)?;
    write_given(disk, SECOND_MIRROR, &mending.second)?;
    disk.sync()?;
    Ok(count)
}

/// How many blocks are to be written for a place: 1, or 0 where there is none.
fn count_of(found: &Option<Block>) -> u64
    ensures { result ≡ writes_of found.now }
{
    match found {
        None => 0,
        Some(_) => 1,
    }
}

/// Writes block 16 again, as it is read, and syncs.
///
/// A device that failed to write it before may give its bytes from the system's memory all the same, and a sync that follows may succeed
/// without writing them once more. A write of the same bytes is waited for anew.
fn write_again<D: Disk>(disk: &mut D) -> Result<(), Fault>
    requires open { D.opened disk.old ≡ Some Access.Write }
    requires room { 16 < D.size disk.old }
    ensures open { D.opened disk.new ≡ D.opened disk.old }
    ensures size { D.size disk.new ≡ D.size disk.old }
    ensures borrow { D.borrow disk.new ≡ D.borrow disk.old }
    ensures only { IsTrue D.tells → WritesOnly (IsRewrite (reads (D.history disk.old))) (D.history disk.old) (D.history disk.new) }
    ensures written { IsTrue D.tells → OnOk result (D.history disk.new ≡ rewritten (D.history disk.old)) }
    ensures cause { HasCause (D.faults disk.old) (D.faults disk.new) result }
{
    let superblock = read_block(disk, SUPER_BLOCK)?;
    disk.write(SUPER_BLOCK, &superblock)?;
    disk.sync()
}

/// Writes a block, if there is one to be written.
fn write_given<D: Disk>(disk: &mut D, place: BlockNo, found: &Option<Block>) -> Result<(), Fault>
    requires open { D.opened disk.old ≡ Some Access.Write }
    requires room { is_some found.now ≡ true → place < D.size disk.old }
    ensures open { D.opened disk.new ≡ D.opened disk.old }
    ensures size { D.size disk.new ≡ D.size disk.old }
    ensures borrow { D.borrow disk.new ≡ D.borrow disk.old }
    ensures only { IsTrue D.tells → WritesOnly (IsGivenAt place found.now) (D.history disk.old) (D.history disk.new) }
    ensures written { IsTrue D.tells → OnOk result (block_at (reads (D.history disk.new)) place ≡ given found.now (block_at (reads (D.history disk.old)) place)) }
    ensures cause { HasCause (D.faults disk.old) (D.faults disk.new) result }
{
    match found {
        None => Ok(()),
        Some(block) => disk.write(place, block),
    }
}
