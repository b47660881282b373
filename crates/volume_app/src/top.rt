ghost use Rattle.std.specs.Prelude.{◌≡◌, ◌≢◌, ◌↔◌, ◌<◌, ◌-◌, ◌^◌, ◌⊎◌, map, None, IfSome, IsTrue, string_bytes, option_and_then};
ghost use Rattle.reiser_volume.specs.outside.Fault.{Rose};
ghost use Rattle.first_sync.specs.Synced.{EachCrashSynced};
ghost use Rattle.reiser_volume.specs.outside.History.{IsSettled, reads};
ghost use Rattle.volume_app.specs.Command.{command, opens};
ghost use Rattle.volume_app.specs.Headline.{KeepsPromise};
ghost use Rattle.volume_app.specs.Outcome.{Performs, RunsCommand, meant};
ghost use Rattle.volume_app.specs.Trees.{AreBlocks};

use crate::command::{Command, read_command};
use crate::converting::convert_volume;
use crate::ending::{Ending, printed};
use crate::inspect::inspect_volume;
use crate::list::list_volume;
use crate::recovering::recover_volume;
use crate::rolling_back::roll_back_volume;
use crate::texts::{HELP, VERSION};
use crate::trying::try_on_path;
use reiser_volume::{Disk, Ids, Sink};
use std::alloc::Global;

/// Does what the words ask for, and answers the status of the program.
///
/// `words` are those behind the program's name, `ids` and `now` (seconds since 1970) go into what is written. The
/// status is 0 where the command was done and its text printed, 1 where the volume is refused, 2 where the words are
/// no command, 3 where a call of the device failed, 4 where there was no memory, 5 where the text could not be
/// printed, and 6 where there is too little space. Every other status than 0 has its line on the error sink; a failed write there changes
/// nothing.
pub fn run<D: Disk, O: Sink, E: Sink>(
    alloc: Global,
    words: &[String],
    ids: Ids,
    now: u64,
    disk: &mut D,
    out: &mut O,
    err: &mut E,
) -> u8
    requires closed { D.opened disk.old ≡ None }
    requires moment { now < 2 ^ 63 }
    // Nothing else is known to be wanted, so nothing else can be opened.
    requires wanted { IfSome (option_and_then opens (command (map string_bytes words.now))) (λ o. D.wants o.0 o.1) }

    ensures usage { (result ≡ 2) ↔ (command (map string_bytes words.now) ≡ None) }
    // A failed call is never answered by another status than its own.
    ensures device { result ≡ 3 → Rose (D.faults disk.old) (D.faults disk.new) }
    ensures device_kept { result ≢ 3 → D.faults disk.new ≡ D.faults disk.old }
    ensures output { result ≡ 5 → Rose (O.faults out.old) (O.faults out.new) }
    ensures output_kept { result ≢ 5 → O.faults out.new ≡ O.faults out.old }
    ensures memory { result ≡ 4 → (meant ids now (map string_bytes words.now)).takes_memory }
    // A command that only reads writes nothing and syncs nothing. One that writes has done no more than its first sync where it is refused; but
    // `convert` and `recover` have put block 16 back, too, where it was half turned.
    ensures unchanged { IsTrue D.tells → (meant ids now (map string_bytes words.now)).keeps (reads (D.history disk.old)) result → (meant ids now (map string_bytes words.now)).first (D.history disk.old) (D.history disk.new) }
    // One that lacks space has written nothing, but for a trial whose sample does: that sample stays. What there is has reached the device.
    ensures lacking { IsTrue D.tells → result ≡ 6 → (meant ids now (map string_bytes words.now)).lacking (reads (D.history disk.old)) (reads (D.history disk.new)) × (IsTrue (meant ids now (map string_bytes words.now)).writes → IsSettled (D.history disk.new)) }
    // Where memory ran out nothing was written but a block 16 that was put back; `convert` may have written to free units of the volume, too. Of a
    // trial nothing is said.
    ensures starved { IsTrue D.tells → result ≡ 4 → (meant ids now (map string_bytes words.now)).starved (reads (D.history disk.old)) (reads (D.history disk.new)) }
    // Where the command was done the disk is what it makes of it, whether its text could be printed or not.
    ensures changed { IsTrue D.tells → (result ≡ 0) ⊎ (result ≡ 5) → (meant ids now (map string_bytes words.now)).becomes (reads (D.history disk.old)) (reads (D.history disk.new)) }
    ensures settled { IsTrue D.tells → IsTrue (meant ids now (map string_bytes words.now)).writes → (result ≡ 0) ⊎ (result ≡ 5) → IsSettled (D.history disk.new) }
    // From every history of the disk: nothing is called before a sync that succeeds, and a crash at any moment since then leaves what the
    // command may leave. Of a trial no more is said.
    ensures crash { EachCrashSynced D.tells (D.history disk.old) (D.history disk.new) ((meant ids now (map string_bytes words.now)).leaves (reads (D.history disk.old))) }
    // `convert` writes block 16, and of the volume units that it has free and the places of the superblock's copies; nothing else at any moment.
    // `recover` writes no copy before it has written block 16 as it stands, and synced.
    ensures order { IsTrue D.tells → (meant ids now (map string_bytes words.now)).order (D.history disk.old) (D.history disk.new) }
    ensures ends { RunsCommand (meant ids now (map string_bytes words.now)) (IsTrue D.tells) (reads (D.history disk.old)) result
        (IsTrue O.tells) (O.taken out.old) (O.taken out.new) (IsTrue E.tells) (E.faults err.old) (E.faults err.new) (E.taken err.old) (E.taken err.new) }
    // Also over a disk that tells nothing, a run that isn't done prints nothing.
    ensures quiet { IsTrue O.tells → result ≢ 0 → result ≢ 5 → O.taken out.new ≡ O.taken out.old }
    // Where no count rose and nothing is to be refused, the command is done, unless memory was short.
    ensures complete { IsTrue D.tells → (meant ids now (map string_bytes words.now)).is_due (reads (D.history disk.old))
        → D.faults disk.new ≡ D.faults disk.old → D.faults disk.old < 2 ^ 64 - 1
        → O.faults out.new ≡ O.faults out.old → O.faults out.old < 2 ^ 64 - 1 → (result ≡ 0) ⊎ (result ≡ 4) }
    // The promise of the program: on every accepted volume with the stated free space convert succeeds, unless the device failed or memory
    // ran out, and the Btrfs tree then equals the ReiserFS tree; while the saved image is untouched, rollback restores every block that
    // the old bitmap marks used; and a crash at any moment of convert, rollback or recover leaves exactly one of the two formats, with its tree,
    // whatever waited to reach the device before: from the first call on, which is a sync.
    ensures headline { IsTrue D.tells → AreBlocks (reads (D.history disk.old))
        → KeepsPromise (command (map string_bytes words.now)) (D.history disk.old) (D.history disk.new) result
        (D.faults disk.old) (D.faults disk.new) (O.faults out.old) (O.faults out.new) }
{
    let ending = perform(alloc, words, &ids, now, disk, out);
    let _ = ending.write_line(err);
    ending.status()
}

/// Does what the words ask for.
fn perform<D: Disk, O: Sink>(
    alloc: Global,
    words: &[String],
    ids: &Ids,
    now: u64,
    disk: &mut D,
    out: &mut O,
) -> Ending
    requires closed { D.opened disk.old ≡ None }
    requires moment { now < 2 ^ 63 }
    requires wanted { IfSome (option_and_then opens (command (map string_bytes words.now))) (λ o. D.wants o.0 o.1) }
    ensures usage { (result ≡ Ending.Usage) ↔ (command (map string_bytes words.now) ≡ None) }
    ensures performs { Performs (meant ids.now now (map string_bytes words.now)) D.tells (D.history disk.old) (D.history disk.new) (D.faults disk.old) (D.faults disk.new)
        O.tells (O.taken out.old) (O.taken out.new) (O.faults out.old) (O.faults out.new) result }
{
    match read_command(words) {
        None => Ending::Usage,
        Some(Command::Inspect(path, options)) => {
            inspect_volume(alloc, path, &options, disk, out)
        }
        Some(Command::List(path)) => list_volume(alloc, path, disk, out),
        Some(Command::Convert(path, options)) => {
            convert_volume(alloc, path, ids, now, &options, disk, out)
        }
        Some(Command::Recover(path)) => recover_volume(alloc, path, disk, out),
        Some(Command::Rollback(path)) => roll_back_volume(alloc, path, disk, out),
        Some(Command::Trial(number, path)) => {
            try_on_path(alloc, path, number, ids, now, disk, out)
        }
        Some(Command::Help) => printed(out.write(HELP)),
        Some(Command::Version) => printed(out.write(VERSION)),
    }
}
