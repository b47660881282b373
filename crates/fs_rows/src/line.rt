// The line of a row.
ghost use Rattle.std.specs.Prelude.{◌≡◌, ◌++◌, ◌∷◌, [], codes, decimal, IsTrue};
ghost use Rattle.std.specs.Fmt.{signed_decimal};
ghost use Rattle.std.specs.List.{flat_map};
ghost use Rattle.sink_text.specs.outside.Fault.{HasCause};
ghost use Rattle.sink_text.specs.Escape.{escaped};
ghost use Rattle.sink_text.specs.Pushes.{Pushes};
ghost use Rattle.sink_text.specs.Text.{piece_text};
ghost use Rattle.fs_rows.specs.Text.{any_flag, device_by, end_by, fields_by, flag, flags_text, kind_letter, known_fields, last_fields, least_text, length_text, mark_text, names_by, owner_fields, path_text, row_text, slashed, spaced, time_fields};

use crate::{Kind, Name, Path, Row, Time};
use sink_text::TextPart::{Decimal, Escaped, Fraction, Hex, Octal, Plain, Signed};
use sink_text::{Buffered, Fault, Sink, TextPart};

/// Adds the line of a row.
pub fn push_row<S: Sink>(row: &Row, text: &mut Buffered, out: &mut S) -> Result<(), Fault>
    ensures taken { IsTrue S.tells → Pushes (S.taken out.old) text.old (row_text row.now) result (S.taken out.new) text.new }
    ensures cause { HasCause (S.faults out.old) (S.faults out.new) result }
{
    push_fields(row, text, out)?;
    push_path(&row.path, text, out)?;
    push_least(row, text, out)?;
    push_end(row.kind, row.target.bytes(), text, out)
}

/// Adds the fields before the path.
fn push_fields<S: Sink>(row: &Row, text: &mut Buffered, out: &mut S) -> Result<(), Fault>
    ensures taken { IsTrue S.tells → Pushes (S.taken out.old) text.old (spaced (fields_by row.now.kind row.now)) result (S.taken out.new) text.new }
    ensures cause { HasCause (S.faults out.old) (S.faults out.new) result }
{
    match row.kind {
        Kind::Subvolume => text.push(b"v - - - - - - - - - - - ", out),
        Kind::Directory
        | Kind::File
        | Kind::Symlink
        | Kind::Character
        | Kind::Block
        | Kind::Fifo
        | Kind::Socket => push_known(row, text, out),
    }
}

/// Adds the fields before the path of a row that is no subvolume's.
fn push_known<S: Sink>(row: &Row, text: &mut Buffered, out: &mut S) -> Result<(), Fault>
    ensures taken { IsTrue S.tells → Pushes (S.taken out.old) text.old (spaced (known_fields row.now)) result (S.taken out.new) text.new }
    ensures cause { HasCause (S.faults out.old) (S.faults out.new) result }
{
    push_owner(row, text, out)?;
    push_times(row, text, out)?;
    push_flags(row, text, out)?;
    push_last(row, text, out)
}

/// Adds the kind, the mode and the owners.
fn push_owner<S: Sink>(row: &Row, text: &mut Buffered, out: &mut S) -> Result<(), Fault>
    ensures taken { IsTrue S.tells → Pushes (S.taken out.old) text.old (spaced (owner_fields row.now)) result (S.taken out.new) text.new }
    ensures cause { HasCause (S.faults out.old) (S.faults out.new) result }
{
    let pieces = [
        Plain(kind_letter(row.kind)),
        Plain(b" "),
        Octal(row.mode),
        Plain(b" "),
        Decimal(u64::from(row.uid)),
        Plain(b" "),
        Decimal(u64::from(row.gid)),
        Plain(b" "),
    ];
    text.push_pieces(&pieces, out)
}

/// Adds the times.
fn push_times<S: Sink>(row: &Row, text: &mut Buffered, out: &mut S) -> Result<(), Fault>
    ensures taken { IsTrue S.tells → Pushes (S.taken out.old) text.old (spaced (time_fields row.now)) result (S.taken out.new) text.new }
    ensures cause { HasCause (S.faults out.old) (S.faults out.new) result }
{
    let pieces = [
        seconds(&row.atime),
        Fraction(row.atime.nsec),
        Plain(b" "),
        seconds(&row.mtime),
        Fraction(row.mtime.nsec),
        Plain(b" "),
        seconds(&row.ctime),
        Fraction(row.ctime.nsec),
        Plain(b" "),
    ];
    text.push_pieces(&pieces, out)
}

/// Adds the flags.
fn push_flags<S: Sink>(row: &Row, text: &mut Buffered, out: &mut S) -> Result<(), Fault>
    ensures taken { IsTrue S.tells → Pushes (S.taken out.old) text.old (spaced (flags_text row.now ∷ [])) result (S.taken out.new) text.new }
    ensures cause { HasCause (S.faults out.old) (S.faults out.new) result }
{
    let pieces = [
        Plain(flag(row.sync, b"S")),
        Plain(flag(row.immutable, b"i")),
        Plain(flag(row.append, b"a")),
        Plain(flag(row.nodump, b"d")),
        Plain(flag(row.noatime, b"A")),
        Plain(flag(!any_flag(row), b"-")),
        Plain(b" "),
    ];
    text.push_pieces(&pieces, out)
}

/// Adds the fields from the device to the mark.
fn push_last<S: Sink>(row: &Row, text: &mut Buffered, out: &mut S) -> Result<(), Fault>
    ensures taken { IsTrue S.tells → Pushes (S.taken out.old) text.old (spaced (last_fields row.now)) result (S.taken out.new) text.new }
    ensures cause { HasCause (S.faults out.old) (S.faults out.new) result }
{
    push_device(row, text, out)?;
    let pieces = [
        Plain(b" "),
        names_piece(row.kind, row.names),
        Plain(b" "),
        length_piece(row.kind, row.length),
        Plain(b" "),
        mark_piece(row.kind, &row.mark),
        Plain(b" "),
    ];
    text.push_pieces(&pieces, out)
}

/// The seconds with their sign.
fn seconds(time: &Time) -> TextPart<'static>
    ensures { piece_text result ≡ signed_decimal time.now.sec }
{
    Signed(time.sec)
}

/// The letter of a kind.
fn kind_letter(kind: Kind) -> &'static [u8]
    ensures { result.now ≡ kind_letter kind }
{
    match kind {
        Kind::Directory => b"d",
        Kind::File => b"f",
        Kind::Symlink => b"l",
        Kind::Character => b"c",
        Kind::Block => b"b",
        Kind::Fifo => b"p",
        Kind::Socket => b"s",
        Kind::Subvolume => b"v",
    }
}

/// The letter of a flag that is set.
fn flag(set: bool, letter: &[u8]) -> &[u8]
    ensures { result.now ≡ flag set letter.now }
{
    if set { letter } else { b"" }
}

/// Whether a flag is set.
fn any_flag(row: &Row) -> bool
    ensures { result ≡ any_flag row.now }
{
    row.sync || row.immutable || row.append || row.nodump || row.noatime
}

/// Adds the numbers of a device.
fn push_device<S: Sink>(row: &Row, text: &mut Buffered, out: &mut S) -> Result<(), Fault>
    ensures taken { IsTrue S.tells → Pushes (S.taken out.old) text.old (device_by row.now.kind row.now) result (S.taken out.new) text.new }
    ensures cause { HasCause (S.faults out.old) (S.faults out.new) result }
{
    match row.kind {
        Kind::Character | Kind::Block => push_numbers(row.major, row.minor, text, out),
        Kind::Directory
        | Kind::File
        | Kind::Symlink
        | Kind::Fifo
        | Kind::Socket
        | Kind::Subvolume => text.push(b"-", out),
    }
}

/// Adds a major and a minor number.
fn push_numbers<S: Sink>(
    major: u64,
    minor: u64,
    text: &mut Buffered,
    out: &mut S,
) -> Result<(), Fault>
    ensures taken { IsTrue S.tells → Pushes (S.taken out.old) text.old (decimal major ++ 58 ∷ decimal minor) result (S.taken out.new) text.new }
    ensures cause { HasCause (S.faults out.old) (S.faults out.new) result }
{
    let pieces = [Decimal(major), Plain(b":"), Decimal(minor)];
    text.push_pieces(&pieces, out)
}

/// How many names there are, but for a directory.
fn names_piece(kind: Kind, names: u64) -> TextPart<'static>
    ensures { piece_text result ≡ names_by kind names }
{
    match kind {
        Kind::Directory | Kind::Subvolume => Plain(b"-"),
        Kind::File | Kind::Symlink | Kind::Character | Kind::Block | Kind::Fifo | Kind::Socket =>
            Decimal(names),
    }
}

/// The length of a file or a target.
fn length_piece(kind: Kind, length: u64) -> TextPart<'static>
    ensures { piece_text result ≡ length_text kind length }
{
    match kind {
        Kind::File | Kind::Symlink => Decimal(length),
        Kind::Directory
        | Kind::Character
        | Kind::Block
        | Kind::Fifo
        | Kind::Socket
        | Kind::Subvolume => Plain(b"-"),
    }
}

/// The mark of a file.
fn mark_piece(kind: Kind, mark: &[u8; 32]) -> TextPart<'_>
    ensures { piece_text result ≡ mark_text kind mark.now }
{
    match kind {
        Kind::File => Hex(mark),
        Kind::Directory
        | Kind::Symlink
        | Kind::Character
        | Kind::Block
        | Kind::Fifo
        | Kind::Socket
        | Kind::Subvolume => Plain(b"-"),
    }
}

/// Adds the least path where it is another one.
fn push_least<S: Sink>(row: &Row, text: &mut Buffered, out: &mut S) -> Result<(), Fault>
    ensures taken { IsTrue S.tells → Pushes (S.taken out.old) text.old (least_text row.now) result (S.taken out.new) text.new }
    ensures cause { HasCause (S.faults out.old) (S.faults out.new) result }
{
    if row.path == row.least {
        return Ok(());
    }
    text.push(b" = ", out)?;
    push_path(&row.least, text, out)
}

/// Adds the target of a symlink, and ends the line.
fn push_end<S: Sink>(
    kind: Kind,
    target: &[u8],
    text: &mut Buffered,
    out: &mut S,
) -> Result<(), Fault>
    ensures taken { IsTrue S.tells → Pushes (S.taken out.old) text.old (end_by kind target.now) result (S.taken out.new) text.new }
    ensures cause { HasCause (S.faults out.old) (S.faults out.new) result }
{
    match kind {
        Kind::Symlink => push_target(target, text, out),
        Kind::Directory
        | Kind::File
        | Kind::Character
        | Kind::Block
        | Kind::Fifo
        | Kind::Socket
        | Kind::Subvolume => text.push(b"\n", out),
    }
}

/// Adds a target and ends the line.
fn push_target<S: Sink>(target: &[u8], text: &mut Buffered, out: &mut S) -> Result<(), Fault>
    ensures taken { IsTrue S.tells → Pushes (S.taken out.old) text.old (codes " -> " ++ (escaped target.now ++ 10 ∷ [])) result (S.taken out.new) text.new }
    ensures cause { HasCause (S.faults out.old) (S.faults out.new) result }
{
    let pieces = [Plain(b" -> "), Escaped(target), Plain(b"\n")];
    text.push_pieces(&pieces, out)
}

/// Adds a path: a slash for the root.
fn push_path<S: Sink>(path: &Path, text: &mut Buffered, out: &mut S) -> Result<(), Fault>
    ensures taken { IsTrue S.tells → Pushes (S.taken out.old) text.old (path_text path.now) result (S.taken out.new) text.new }
    ensures cause { HasCause (S.faults out.old) (S.faults out.new) result }
{
    if path.is_empty() {
        return text.push(b"/", out);
    }
    push_names(path, text, out)
}

/// Adds each name after a slash.
fn push_names<S: Sink>(path: &Path, text: &mut Buffered, out: &mut S) -> Result<(), Fault>
    ensures taken { IsTrue S.tells → Pushes (S.taken out.old) text.old (flat_map slashed path.now) result (S.taken out.new) text.new }
    ensures cause { HasCause (S.faults out.old) (S.faults out.new) result }
{
    for i in 0..path.len() {
        push_name(path.get(i), text, out)?;
    }
    Ok(())
}

/// Adds a name after a slash.
fn push_name<S: Sink>(name: &Name, text: &mut Buffered, out: &mut S) -> Result<(), Fault>
    ensures taken { IsTrue S.tells → Pushes (S.taken out.old) text.old (slashed name.now) result (S.taken out.new) text.new }
    ensures cause { HasCause (S.faults out.old) (S.faults out.new) result }
{
    let pieces = [Plain(b"/"), Escaped(name.bytes())];
    text.push_pieces(&pieces, out)
}
