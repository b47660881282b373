ghost use Rattle.std.specs.Prelude.{◌≡◌, ◌+◌, ◌≤◌, [], ◌++◌, length, decimal, IsTrue, OnOk, OnErr};
ghost use Rattle.std.specs.Fmt.{signed_decimal};
ghost use Rattle.uuid.specs.Text.{hyphenated_text, lower};
ghost use Rattle.outside.specs.Fault.{HasCause, Takes};
ghost use Rattle.sink_text.specs.Digits.{fraction, hex_text, octal_four, point_and_nine};
ghost use Rattle.sink_text.specs.Escape.{escaped};
ghost use Rattle.sink_text.specs.Pushes.{Pushes};
ghost use Rattle.sink_text.specs.Text.{piece_text, text_of};

use crate::TextPart;
use crate::digits::{hex_pair, octal_four, point_and_zeros};
use crate::escapes::escape;
use itoa::Buffer;
use outside::{Fault, Sink};
use std::marker::Model;
use uuid::Uuid;

/// How many bytes are gathered before they go to the sink.
const SIZE: usize = 4096;

/// Text that is gathered, so that a sink gets few large pieces of it and not many small ones.
///
/// A contract sees the bytes that wait. They go to the sink when more text does not fit, and at last by
/// [`Buffered::flush`]; text that waits when the value is dropped is lost. It is to be used with one sink. After a
/// fault the sink has a first part of the text, and no more is to be pushed.
#[derive(Drop)]
pub struct Buffered {
    bytes: [u8; 4096],
    fill: usize,
}

impl Model for Buffered {
    ghost use Rattle.std.specs.Prelude.{ℕ, ◌≤◌, List, take};

    ghost Value = { List ℕ };

    ghost view = { λ b. take b.fill b.bytes };

    ghost invariant = { λ b. b.fill ≤ 4096 };
}

impl Buffered {
    /// No text.
    pub fn new() -> Buffered
        ensures { result ≡ [] }
    {
        Buffered {
            bytes: [0; 4096],
            fill: 0,
        }
    }

    /// Adds these bytes to the text.
    pub fn push<S: Sink>(&mut self, bytes: &[u8], out: &mut S) -> Result<(), Fault>
        ensures taken { IsTrue S.tells → Pushes (S.taken out.old) self.old bytes.now result (S.taken out.new) self.new }
        ensures cause { HasCause (S.faults out.old) (S.faults out.new) result }
    {
        if bytes.len() <= self.room() {
            self.keep(bytes);
            return Ok(());
        }
        self.flush(out)?;
        if bytes.len() <= SIZE {
            self.keep(bytes);
            return Ok(());
        }
        out.write(bytes)
    }

    /// Passes the bytes that wait to the sink. After a fault the sink got some first ones of them.
    pub fn flush<S: Sink>(&mut self, out: &mut S) -> Result<(), Fault>
        ensures taken { IsTrue S.tells → Takes (S.taken out.old) self.old result (S.taken out.new) }
        ensures empty { OnOk result (self.new ≡ []) }
        ensures same { OnErr result (self.new ≡ self.old) }
        ensures cause { HasCause (S.faults out.old) (S.faults out.new) result }
    {
        out.write(&self.bytes[..self.fill])?;
        self.fill = 0;
        Ok(())
    }

    /// Adds the text of the pieces, one after the other.
    pub fn push_pieces<S: Sink>(
        &mut self,
        pieces: &[TextPart<'_>],
        out: &mut S,
    ) -> Result<(), Fault>
        ensures taken { IsTrue S.tells → Pushes (S.taken out.old) self.old (text_of pieces.now) result (S.taken out.new) self.new }
        ensures cause { HasCause (S.faults out.old) (S.faults out.new) result }
    {
        for piece in pieces {
            self.push_piece(piece, out)?;
        }
        Ok(())
    }

    /// Adds the text of a piece.
    pub fn push_piece<S: Sink>(&mut self, piece: &TextPart<'_>, out: &mut S) -> Result<(), Fault>
        ensures taken { IsTrue S.tells → Pushes (S.taken out.old) self.old (piece_text piece.now) result (S.taken out.new) self.new }
        ensures cause { HasCause (S.faults out.old) (S.faults out.new) result }
    {
        match piece {
            TextPart::Plain(bytes) => self.push(bytes, out),
            TextPart::Decimal(number) => self.push_decimal(*number, out),
            TextPart::Signed(number) => self.push_signed(*number, out),
            TextPart::Octal(number) => self.push(&octal_four(*number), out),
            TextPart::Fraction(nanoseconds) => self.push_fraction(*nanoseconds, out),
            TextPart::Hyphenated(id) => self.push_uuid(*id, out),
            TextPart::Escaped(bytes) => self.push_escaped(bytes, out),
            TextPart::Hex(bytes) => self.push_hex(bytes, out),
        }
    }

    fn push_decimal<S: Sink>(&mut self, number: u64, out: &mut S) -> Result<(), Fault>
        ensures taken { IsTrue S.tells → Pushes (S.taken out.old) self.old (decimal number) result (S.taken out.new) self.new }
        ensures cause { HasCause (S.faults out.old) (S.faults out.new) result }
    {
        let mut buffer = Buffer::new();
        self.push(buffer.format(number).as_bytes(), out)
    }

    fn push_signed<S: Sink>(&mut self, number: i64, out: &mut S) -> Result<(), Fault>
        ensures taken { IsTrue S.tells → Pushes (S.taken out.old) self.old (signed_decimal number) result (S.taken out.new) self.new }
        ensures cause { HasCause (S.faults out.old) (S.faults out.new) result }
    {
        let mut buffer = Buffer::new();
        self.push(buffer.format(number).as_bytes(), out)
    }

    fn push_fraction<S: Sink>(&mut self, nanoseconds: u32, out: &mut S) -> Result<(), Fault>
        ensures taken { IsTrue S.tells → Pushes (S.taken out.old) self.old (fraction nanoseconds) result (S.taken out.new) self.new }
        ensures cause { HasCause (S.faults out.old) (S.faults out.new) result }
    {
        if nanoseconds == 0 {
            return self.push(b"", out);
        }
        self.push_nine(nanoseconds, out)
    }

    /// Adds a point and at least nine digits.
    fn push_nine<S: Sink>(&mut self, number: u32, out: &mut S) -> Result<(), Fault>
        ensures taken { IsTrue S.tells → Pushes (S.taken out.old) self.old (point_and_nine number) result (S.taken out.new) self.new }
        ensures cause { HasCause (S.faults out.old) (S.faults out.new) result }
    {
        let mut buffer = Buffer::new();
        let digits = buffer.format(number).as_bytes();
        self.push(point_and_zeros(digits.len()), out)?;
        self.push(digits, out)
    }

    fn push_uuid<S: Sink>(&mut self, id: [u8; 16], out: &mut S) -> Result<(), Fault>
        ensures taken { IsTrue S.tells → Pushes (S.taken out.old) self.old (hyphenated_text lower id) result (S.taken out.new) self.new }
        ensures cause { HasCause (S.faults out.old) (S.faults out.new) result }
    {
        let mut buffer = Uuid::encode_buffer();
        let text = Uuid::from_bytes(id).hyphenated().encode_lower(&mut buffer);
        self.push(text.as_bytes(), out)
    }

    fn push_escaped<S: Sink>(&mut self, bytes: &[u8], out: &mut S) -> Result<(), Fault>
        ensures taken { IsTrue S.tells → Pushes (S.taken out.old) self.old (escaped bytes.now) result (S.taken out.new) self.new }
        ensures cause { HasCause (S.faults out.old) (S.faults out.new) result }
    {
        for byte in bytes {
            let spelling = escape(*byte);
            self.push(&spelling.bytes[..spelling.len], out)?;
        }
        Ok(())
    }

    fn push_hex<S: Sink>(&mut self, bytes: &[u8], out: &mut S) -> Result<(), Fault>
        ensures taken { IsTrue S.tells → Pushes (S.taken out.old) self.old (hex_text bytes.now) result (S.taken out.new) self.new }
        ensures cause { HasCause (S.faults out.old) (S.faults out.new) result }
    {
        for byte in bytes {
            let pair = hex_pair(*byte);
            self.push(&pair, out)?;
        }
        Ok(())
    }

    /// How many more bytes can wait.
    fn room(&self) -> usize
        ensures { result + length self.now ≡ 4096 }
    {
        SIZE - self.fill
    }

    /// Lets these bytes wait behind the others.
    fn keep(&mut self, bytes: &[u8])
        requires { length self.old + length bytes.now ≤ 4096 }
        ensures { self.new ≡ self.old ++ bytes.now }
    {
        let end = self.fill + bytes.len();
        self.bytes[self.fill..end].copy_from_slice(bytes);
        self.fill = end;
    }
}
