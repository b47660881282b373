ghost use Rattle.std.specs.Prelude.{IsTrue};
ghost use Rattle.outside.specs.Fault.{HasCause, Takes};
ghost use Rattle.sink_text.specs.Text.{text_of};

use crate::Buffered;
use outside::{Fault, Sink};

/// A piece of a text.
#[derive(Clone, Copy, Debug)]
pub enum TextPart<'a> {
    /// These bytes as they are.
    Plain(&'a [u8]),
    /// A number in decimal, without leading zeros.
    Decimal(u64),
    /// A number in decimal, without leading zeros, after a minus where it is negative.
    Signed(i64),
    /// The low twelve bits of a number in four octal digits, as permissions are printed.
    Octal(u16),
    /// Nanoseconds behind whole seconds: nothing where they are 0, else a point and at least nine digits, with leading
    /// zeros.
    Fraction(u32),
    /// A UUID, hyphenated and in lower case.
    Hyphenated([u8; 16]),
    /// A name, each of its bytes spelled by [`escape`].
    Escaped(&'a [u8]),
    /// These bytes, each in two digits of sixteen in lower case.
    Hex(&'a [u8]),
}

/// Writes the text of the pieces, one after the other, in as few calls of the sink as its length allows. After a fault
/// the sink gained a first part of it.
pub fn write_pieces<S: Sink>(pieces: &[TextPart<'_>], out: &mut S) -> Result<(), Fault>
    ensures taken { IsTrue S.tells → Takes (S.taken out.old) (text_of pieces.now) result (S.taken out.new) }
    ensures cause { HasCause (S.faults out.old) (S.faults out.new) result }
{
    let mut text = Buffered::new();
    text.push_pieces(pieces, out)?;
    text.flush(out)
}
