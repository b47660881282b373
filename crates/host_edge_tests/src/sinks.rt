use host_edge::{LineSink, StatusLine, StdSink};
use outside::{Fault, Sink};
use std::io;
use std::io::Write;
use std::test::Fail;

/// A stream that takes three bytes a call, and after so many calls none.
#[derive(Drop)]
struct Slow {
    taken: Vec<u8>,
    calls: u8,
}

impl Write for Slow {
    fn write(&mut self, bytes: &[u8]) -> io::Result<usize> {
        if self.calls == 0 {
            return Ok(0);
        }
        self.calls -= 1;
        let count = bytes.len().min(3);
        self.taken.extend_from_slice(&bytes[..count])?;
        Ok(count)
    }

    fn flush(&mut self) -> io::Result<()> {
        Ok(())
    }
}

/// Texts, and whether that stream takes them whole.
const TEXTS: &[(&[u8], bool)] = &[
    (b"ab", true),
    (b"", true),
    (b"cdefg", true),
    (b"hijkl", false),
];

/// Whether a sink takes of those texts the ones that it should.
fn takes(sink: &mut StdSink<'_, Slow>) -> bool {
    for (text, is_taken) in TEXTS {
        if sink.write(*text).is_ok() != *is_taken {
            return false;
        }
    }
    true
}

#[test]
fn a_stream_is_a_sink(rt: HostRuntime) {
    let line = StatusLine::none();
    let slow = Slow {
        taken: Vec::new(rt.alloc()),
        calls: 4,
    };
    let mut sink = StdSink::new(slow, &line);
    assert!(rt; takes(&mut sink));
    assert_eq!(rt; sink.stream().taken.as_slice(), b"abcdefghij".as_slice());
}

/// Writes a line, with a text that is no part of it.
fn write_line<W: Write + Drop>(sink: &mut LineSink<'_, W>) -> Result<(), Fault> {
    sink.write(b"refused 16 ")?;
    sink.pass(b"no part of it ")?;
    sink.write(b"format\n")
}

#[test]
fn a_line_is_kept_up_to_its_length(rt: HostRuntime) -> Result<(), Fail> {
    let line = StatusLine::none();
    let mut sink = LineSink::new(StdSink::new(io::sink(), &line));
    write_line(&mut sink)?;
    assert_eq!(rt; sink.line(), b"refused 16 format\n".as_slice());
    sink.write(&[b'x'; 4096])?;
    assert_eq!(rt; sink.line().len(), 512);
    Ok(())
}
