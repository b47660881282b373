ghost use Rattle.std.specs.Prelude.{◌≡◌, ◌≤◌, false, []};
ghost use Rattle.outside.specs.Fault.{Rose};

use host_edge_progress::StatusLine;
use outside::{Fault, Sink};
use std::io::Write;

/// A sink over a stream, as standard output or standard error. It keeps nothing back, and counts each failure. Before it
/// writes, it wipes the line that a terminal shows, since the stream may go to the same terminal.
#[derive(Drop)]
pub struct StdSink<'a, W: Write + Drop> {
    stream: W,
    faults: u64,
    shown: &'a StatusLine,
}

impl<'a, W: Write + Drop> StdSink<'a, W> {
    /// A sink that passes on to this stream.
    pub fn new(stream: W, shown: &'a StatusLine) -> Self {
        StdSink {
            stream,
            faults: 0,
            shown,
        }
    }

    /// The stream.
    pub fn stream(&self) -> &W {
        &self.stream
    }

    /// Counts a failure.
    fn fail(&mut self) -> Fault
        ensures rose { Rose self.old.faults self.new.faults }
        ensures later { self.old.faults ≤ self.new.faults }
    {
        self.faults = self.faults.saturating_add(1);
        Fault
    }
}

impl<W: Write + Drop> Sink for StdSink<'_, W> {
    ghost tells = { false };

    ghost taken = { λ _. [] };

    ghost faults = { λ s. s.faults };

    fn write(&mut self, bytes: &[u8]) -> Result<(), Fault> {
        self.shown.wipe();
        match write_all(&mut self.stream, bytes) {
            Ok(()) => Ok(()),
            Err(Fault) => Err(self.fail()),
        }
    }
}

/// Writes all bytes, in as many calls as it takes. A call that takes none is a failure.
fn write_all<W: Write>(stream: &mut W, bytes: &[u8]) -> Result<(), Fault> {
    let mut rest = bytes;
    while !rest.is_empty() {
        match stream.write(rest) {
            Ok(0) | Err(_) => return Err(Fault),
            Ok(count) => rest = &rest[count..],
        }
    }
    Ok(())
}
