ghost use Rattle.std.specs.Prelude.{◌≡◌, ◌≢◌, ◌↔◌, ◌≤◌, ◌<◌, ◌-◌, ◌^◌, ◌⊎◌, map, Some, None, IfSome, IsTrue, IfErr, OnOk, string_bytes};
ghost use Rattle.sink_text.specs.outside.Fault.{HasCauseOf, Rose};
ghost use Rattle.sink_text.specs.outside.History.{reads, WritesOnly};
ghost use Rattle.reiser_make.specs.Maker.{IsRight, KeepsHistory};
ghost use Rattle.reiser_make_app.specs.Order.{order, seen};
ghost use Rattle.reiser_make_app.specs.Outcome.{
  needed_by,
  HasSampleRoom,
  HasSample,
  EndsRight,
  FitsDevice,
  IsMade,
  Leaves,
  LeavesDisk,
  OnlyUsed,
  TellsFault,
  Uses,
  RunsMaker,
};

use crate::words::read_words;
use crate::{MakeEnding, Order};
use reiser_make::{MakeAnswer, make, make_old};
use sink_text::{Access, Disk, Fault, Sink};
use std::alloc::Global;

/// Makes the sample volume that the words order, and answers the status of the program.
///
/// `words` are those behind the program's name. The status is 0 where the volume was made and has reached the device, 1 where
/// the device has fewer blocks than were ordered, 2 where the words order nothing, 3 where a call of the device failed, 4
/// where there was no memory, and 6 where the sample takes more blocks than were ordered. Only on 0 and 3 was anything
/// written. Every other status than 0 has its line on the error sink; a failed write there changes nothing.
pub fn run<D: Disk, E: Sink>(alloc: Global, words: &[String], disk: &mut D, err: &mut E) -> u8
    requires closed { D.opened disk.old ≡ None }
    // Nothing else is known to be wanted, so nothing else can be opened.
    requires wanted { IfSome (order (map string_bytes words.now)) (λ o. D.wants o.path Access.Write) }

    ensures usage { (result ≡ 2) ↔ (order (map string_bytes words.now) ≡ None) }
    ensures device { result ≡ 3 → Rose (D.faults disk.old) (D.faults disk.new) }
    ensures faultless { result ≢ 3 → D.faults disk.new ≡ D.faults disk.old }
    ensures ends { RunsMaker (order (map string_bytes words.now)) (D.size disk.new) result (IsTrue D.tells) (D.history disk.old) (D.history disk.new)
        (IsTrue E.tells) (E.faults err.old) (E.faults err.new) (E.taken err.old) (E.taken err.new) }
    ensures only { IsTrue D.tells → OnlyUsed (order (map string_bytes words.now)) (D.history disk.old) (D.history disk.new) }
    // Where the volume has room for the sample, and the device for the volume, and no count rose, it is made, unless memory was
    // short.
    ensures complete { HasSampleRoom (order (map string_bytes words.now)) (D.size disk.new) → D.faults disk.new ≡ D.faults disk.old → D.faults disk.old < 2 ^ 64 - 1
        → (result ≡ 0) ⊎ (result ≡ 4) }
{
    let ending = perform(alloc, words, disk);
    let _ = ending.write_line(err);
    ending.status()
}

/// Makes the volume that the words order.
fn perform<D: Disk>(alloc: Global, words: &[String], disk: &mut D) -> MakeEnding
    requires closed { D.opened disk.old ≡ None }
    requires wanted { IfSome (order (map string_bytes words.now)) (λ o. D.wants o.path Access.Write) }
    ensures right { EndsRight (order (map string_bytes words.now)) (D.size disk.new) result }
    ensures left { IsTrue D.tells → LeavesDisk (order (map string_bytes words.now)) (D.history disk.old) (D.history disk.new) result }
    ensures only { IsTrue D.tells → OnlyUsed (order (map string_bytes words.now)) (D.history disk.old) (D.history disk.new) }
    ensures cause { TellsFault result (D.faults disk.old) (D.faults disk.new) }
{
    match read_words(words) {
        None => MakeEnding::Usage,
        Some(order) => make_on_path(alloc, &order, disk),
    }
}

/// Opens the device, and makes the volume on it.
fn make_on_path<D: Disk>(alloc: Global, order: &Order<'_>, disk: &mut D) -> MakeEnding
    requires closed { D.opened disk.old ≡ None }
    requires wanted { D.wants order.now.path.now Access.Write }
    ensures right { FitsDevice (seen order.now) (D.size disk.new) result }
    ensures left { IsTrue D.tells → Leaves (seen order.now) (D.history disk.old) (D.history disk.new) result }
    ensures only { IsTrue D.tells → WritesOnly (λ b _. Uses (seen order.now) b) (D.history disk.old) (D.history disk.new) }
    ensures cause { TellsFault result (D.faults disk.old) (D.faults disk.new) }
{
    match disk.open(order.path, Access::Write) {
        Ok(()) => make_on_device(alloc, order, disk),
        Err(Fault) => MakeEnding::Fault,
    }
}

/// Makes the volume on a device that is open.
fn make_on_device<D: Disk>(alloc: Global, order: &Order<'_>, disk: &mut D) -> MakeEnding
    requires open { D.opened disk.old ≡ Some Access.Write }
    ensures right { FitsDevice (seen order.now) (D.size disk.new) result }
    ensures left { IsTrue D.tells → Leaves (seen order.now) (D.history disk.old) (D.history disk.new) result }
    ensures only { IsTrue D.tells → WritesOnly (λ b _. Uses (seen order.now) b) (D.history disk.old) (D.history disk.new) }
    ensures cause { TellsFault result (D.faults disk.old) (D.faults disk.new) }
{
    let device = disk.len();
    if device < order.blocks {
        return MakeEnding::Short {
            blocks: order.blocks,
            device,
        };
    }
    match write_ordered(alloc, order, disk) {
        Ok(()) => MakeEnding::Made,
        Err(MakeAnswer::Full { needed, blocks }) => MakeEnding::Full { needed, blocks },
        Err(MakeAnswer::Fault) => MakeEnding::Fault,
        Err(MakeAnswer::Memory) => MakeEnding::Memory,
    }
}

/// Makes the volume, and waits until it has reached the device.
fn write_ordered<D: Disk>(alloc: Global, order: &Order<'_>, disk: &mut D) -> Result<(), MakeAnswer>
    requires inside { order.now.blocks ≤ D.size disk.old }
    requires open { D.opened disk.old ≡ Some Access.Write }
    ensures size { D.size disk.new ≡ D.size disk.old }
    ensures right { IfErr result (IsRight (needed_by (seen order.now)) order.now.blocks) }
    ensures enough { OnOk result (needed_by (seen order.now) ≤ order.now.blocks) }
    ensures only { IsTrue D.tells → WritesOnly (λ b _. Uses (seen order.now) b) (D.history disk.old) (D.history disk.new) }
    ensures made { IsTrue D.tells → OnOk result (IsMade (seen order.now) (D.history disk.old) (D.history disk.new)) }
    ensures unchanged { IsTrue D.tells → IfErr result (λ answer. KeepsHistory answer (D.history disk.old) (D.history disk.new)) }
    ensures cause { HasCauseOf MakeAnswer.Fault (D.faults disk.old) (D.faults disk.new) result }
{
    make_ordered(alloc, order, disk)?;
    disk.sync()?;
    Ok(())
}

/// Makes the volume in the version that is ordered.
fn make_ordered<D: Disk>(alloc: Global, order: &Order<'_>, disk: &mut D) -> Result<(), MakeAnswer>
    requires inside { order.now.blocks ≤ D.size disk.old }
    requires open { D.opened disk.old ≡ Some Access.Write }
    ensures open { D.opened disk.new ≡ D.opened disk.old }
    ensures size { D.size disk.new ≡ D.size disk.old }
    ensures right { IfErr result (IsRight (needed_by (seen order.now)) order.now.blocks) }
    ensures enough { OnOk result (needed_by (seen order.now) ≤ order.now.blocks) }
    ensures only { IsTrue D.tells → WritesOnly (λ b _. Uses (seen order.now) b) (D.history disk.old) (D.history disk.new) }
    ensures written { IsTrue D.tells → OnOk result (HasSample (seen order.now) (reads (D.history disk.old)) (reads (D.history disk.new))) }
    ensures unchanged { IsTrue D.tells → IfErr result (λ answer. KeepsHistory answer (D.history disk.old) (D.history disk.new)) }
    ensures cause { HasCauseOf MakeAnswer.Fault (D.faults disk.old) (D.faults disk.new) result }
{
    if order.old {
        make_old(alloc, order.number, order.blocks, disk)
    } else {
        make(alloc, order.number, order.blocks, disk)
    }
}
