ghost use Rattle.std.specs.Prelude.{◌≤◌, false, []};

use crate::std_sink::StdSink;
use outside::{Fault, Sink};
use std::io::Write;

/// How many bytes of a text are kept. Each line on standard error has fewer, and so has all that `inspect` prints.
const KEPT: usize = 512;

/// The first bytes of a text.
#[derive(Drop)]
struct TextPrefix {
    bytes: [u8; KEPT],
    length: usize,
    ghost bounded: { length ≤ 512 },
}

impl TextPrefix {
    /// Takes in as many of the bytes as there is room for.
    fn add(&mut self, bytes: &[u8]) {
        let room = &mut self.bytes[self.length..];
        let count = bytes.len().min(room.len());
        room[..count].copy_from_slice(&bytes[..count]);
        self.length += count;
    }
}

/// A sink over a stream that keeps the first bytes of what it passes on.
#[derive(Drop)]
pub struct LineSink<'a, W: Write + Drop> {
    sink: StdSink<'a, W>,
    front: TextPrefix,
}

impl<'a, W: Write + Drop> LineSink<'a, W> {
    /// A sink that passes on to this one, and has kept nothing yet.
    pub fn new(sink: StdSink<'a, W>) -> Self {
        LineSink {
            sink,
            front: TextPrefix {
                bytes: [0; KEPT],
                length: 0,
            },
        }
    }

    /// Passes on what is not to be kept.
    pub fn pass(&mut self, bytes: &[u8]) -> Result<(), Fault> {
        self.sink.write(bytes)
    }

    /// What was passed on, as far as it is kept.
    pub fn line(&self) -> &[u8] {
        &self.front.bytes[..self.front.length]
    }
}

impl<W: Write + Drop> Sink for LineSink<'_, W> {
    ghost tells = { false };

    ghost taken = { λ _. [] };

    ghost faults = { λ s. s.sink.faults };

    fn write(&mut self, bytes: &[u8]) -> Result<(), Fault> {
        self.front.add(bytes);
        self.sink.write(bytes)
    }
}
