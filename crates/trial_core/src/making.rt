// The sample of a trial.
ghost use Rattle.std.specs.Prelude.{◌≡◌, ◌≤◌, Some, IfErr, IsTrue, OnOk};
ghost use Rattle.reiser_bitmap.specs.outside.Fault.{HasCauseOf};
ghost use Rattle.first_sync.specs.Synced.{GoesOn};
ghost use Rattle.trial_core.specs.Answers.{IsMakeAnswer, LeavesRound};
ghost use Rattle.trial_core.specs.Trial.{IsSampleMade, needed_by};

use crate::answers::make_answer;
use crate::scratch::BLOCKS;
use convert_core::Answer;
use reiser_bitmap::{Access, Disk};
use reiser_make::make;
use reiser_make_laws::{samples_are_as_described, samples_mark_used};
use std::alloc::Global;

/// Makes the sample of a number in the first blocks of a disk, and waits until it has reached the device.
pub fn make_sample<D: Disk>(alloc: Global, number: u32, disk: &mut D) -> Result<(), Answer>
    requires number { number ≤ 4000 }
    requires open { D.opened disk.old ≡ Some Access.Write }
    requires inside { 65536 ≤ D.size disk.old }
    ensures open { D.opened disk.new ≡ D.opened disk.old }
    ensures size { D.size disk.new ≡ D.size disk.old }
    ensures grows { IsTrue D.tells → GoesOn (D.history disk.old) (D.history disk.new) }
    ensures enough { OnOk result (needed_by number ≤ 65536) }
    ensures made { IsTrue D.tells → OnOk result (IsSampleMade number (D.history disk.old) (D.history disk.new)) }
    ensures leaves { IsTrue D.tells → IfErr result (LeavesRound (D.history disk.old) (D.history disk.new)) }
    ensures cause { HasCauseOf Answer.Fault (D.faults disk.old) (D.faults disk.new) result }
    ensures answers { IfErr result (IsMakeAnswer number) }
{
    samples_are_as_described();
    samples_mark_used();
    if let Err(answer) = make(alloc, number, BLOCKS, disk) {
        return Err(make_answer(answer));
    }
    disk.sync()?;
    Ok(())
}
