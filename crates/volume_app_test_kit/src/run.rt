// A command over a disk in memory.
ghost use Rattle.std.specs.Prelude.{◌≡◌, None, OnOk};

use crate::broken::Broken;
use outside::Memory;
use outside_mem::{MemDisk, MemSink};
use std::alloc::Global;
use vol_block::Ids;
use volume_app::run;

/// The identifiers of each conversion.
const IDS: Ids = Ids {
    fsid: [0x11; 16],
    device: [0x22; 16],
    chunk_tree: [0x33; 16],
    subvolume: [0x44; 16],
};

/// The moment of each run, in seconds since the start of 1970.
const NOW: u64 = 1_700_000_000;

/// What goes wrong in a run.
#[derive(Clone, Copy)]
pub enum Trouble {
    Nothing,
    /// The call of the disk of this number fails, counted from 0.
    Call(u64),
    /// All calls of the disk fail behind so many writes.
    Power(u64),
    /// The output takes nothing.
    Output,
}

/// What a run answered, and what it printed.
#[derive(Drop)]
pub struct Ended {
    pub status: u8,
    pub out: Vec<u8>,
    pub err: Vec<u8>,
}

impl Ended {
    /// Whether this is the status, and these are the texts.
    pub fn is(&self, status: u8, out: &str, err: &str) -> bool {
        self.status == status
            && self.out.as_slice() == out.as_bytes()
            && self.err.as_slice() == err.as_bytes()
    }

    /// Whether the command was done, and printed what it had to.
    pub fn is_done(&self, is_printed: bool) -> bool {
        self.status == 0 && is_printed && self.err.is_empty()
    }

    /// Whether the output failed, which has the beginning of this text or nothing.
    pub fn is_unprinted(&self, text: &str) -> bool {
        self.status == 5
            && text.as_bytes().starts_with(&self.out)
            && self.err.as_slice() == b"output fault\n".as_slice()
    }
}

/// Flushes and closes a disk, and has the calls fail that are to fail in the next run.
fn prepare(disk: &mut MemDisk, trouble: Trouble) -> Result<(), Memory>
    ensures { OnOk result (disk.new.opened ≡ None) }
{
    disk.settle();
    match trouble {
        Trouble::Call(call) => disk.fail_call(call),
        Trouble::Power(writes) => {
            disk.stop_at_write(writes);
            Ok(())
        }
        Trouble::Nothing | Trouble::Output => Ok(()),
    }
}

/// The words of a command line, of which one space stands between each two.
fn words_of(alloc: Global, line: &str) -> Result<Vec<String>, Memory> {
    let mut words = Vec::new(alloc);
    for word in line.split(' ') {
        words.push(String::from_str(alloc, word)?)?;
    }
    Ok(words)
}

/// A sink for a run.
fn output(alloc: Global, trouble: Trouble) -> Result<MemSink, Memory> {
    let mut out = MemSink::new(alloc);
    if let Trouble::Output = trouble {
        out.fail_call(0)?;
    }
    Ok(out)
}

/// What a sink took.
fn taken(alloc: Global, sink: &MemSink) -> Result<Vec<u8>, Memory> {
    let mut bytes = Vec::new(alloc);
    bytes.extend_from_slice(sink.bytes())?;
    Ok(bytes)
}

/// Runs the words of a command line over a disk: its status.
fn status_of(
    alloc: Global,
    words: &[String],
    disk: &mut MemDisk,
    out: &mut MemSink,
    err: &mut MemSink,
) -> u8
    requires { disk.old.opened ≡ None }
{
    run(alloc, words, IDS, NOW, disk, out, err)
}

/// What a run answered whose sinks took this.
fn with_sinks(alloc: Global, status: u8, out: &MemSink, err: &MemSink) -> Result<Ended, Memory> {
    let out = taken(alloc, out)?;
    let err = taken(alloc, err)?;
    Ok(Ended { status, out, err })
}

/// Runs words over a disk, with an output that takes nothing where that is the trouble.
fn ran_words(
    alloc: Global,
    words: &[String],
    disk: &mut MemDisk,
    trouble: Trouble,
) -> Result<Ended, Memory>
    requires { disk.old.opened ≡ None }
{
    let mut out = output(alloc, trouble)?;
    let mut err = MemSink::new(alloc);
    let status = status_of(alloc, words, disk, &mut out, &mut err);
    with_sinks(alloc, status, &out, &err)
}

/// Runs a command line over a disk, which is flushed and closed before it.
pub fn ran(
    alloc: Global,
    line: &str,
    disk: &mut MemDisk,
    trouble: Trouble,
) -> Result<Ended, Memory> {
    let words = words_of(alloc, line)?;
    prepare(disk, trouble)?;
    ran_words(alloc, &words, disk, trouble)
}

/// Runs a command that has to be done: what it printed.
pub fn done(alloc: Global, line: &str, disk: &mut MemDisk) -> Result<Vec<u8>, Broken> {
    let ended = ran(alloc, line, disk, Trouble::Nothing)?;
    if ended.status != 0 {
        return Err(Broken::Status(ended.status));
    }
    Ok(ended.out)
}
