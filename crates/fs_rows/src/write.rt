ghost use Rattle.std.specs.Prelude.{IsTrue};
ghost use Rattle.sink_text.specs.outside.Fault.{HasCause, Takes};
ghost use Rattle.sink_text.specs.Pushes.{Pushes};
ghost use Rattle.fs_rows.specs.Text.{rows_text};

use crate::Rows;
use crate::line::push_row;
use sink_text::{Buffered, Fault, Sink};

/// Writes a line for each row: KIND MODE UID GID ATIME MTIME CTIME FLAGS DEVICE NAMES LENGTH MARK PATH, with a space
/// between. After a fault the sink gained a first part of this text.
///
/// - KIND is `d`, `f`, `l`, `c`, `b`, `p`, `s`, or `v` for a subvolume, of which all but PATH is `-`.
/// - MODE has four octal digits. Times are seconds, which may have a minus; nanoseconds that are not 0 follow as a
///   point and at least nine digits.
/// - FLAGS has the letters `S` sync, `i` immutable, `a` append, `d` nodump, `A` noatime, or `-`.
/// - DEVICE is `major:minor` for a device. NAMES is `-` for a directory. LENGTH is the number of bytes of a file or
///   target. MARK has 64 digits of sixteen, for a file. Else these are `-`.
/// - PATH is `/` for the root, else each name after a `/`. Where it is not the least path of its object, ` = ` and the
///   least path follow. A symlink's line ends with ` -> ` and the target. A byte of a name or target is printed as
///   itself where it is 0x21 to 0x7E and no backslash, else as `\x` and two digits of sixteen.
pub fn write_rows<S: Sink>(rows: &Rows, out: &mut S) -> Result<(), Fault>
    ensures taken { IsTrue S.tells → Takes (S.taken out.old) (rows_text rows.now) result (S.taken out.new) }
    ensures cause { HasCause (S.faults out.old) (S.faults out.new) result }
{
    let mut text = Buffered::new();
    push_rows(rows, &mut text, out)?;
    text.flush(out)
}

fn push_rows<S: Sink>(rows: &Rows, text: &mut Buffered, out: &mut S) -> Result<(), Fault>
    ensures taken { IsTrue S.tells → Pushes (S.taken out.old) text.old (rows_text rows.now) result (S.taken out.new) text.new }
    ensures cause { HasCause (S.faults out.old) (S.faults out.new) result }
{
    for i in 0..rows.len() {
        push_row(rows.get(i), text, out)?;
    }
    Ok(())
}
