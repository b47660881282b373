//! The program `reiserconv`: it makes the disk, the sinks, the identifiers and the moment, calls `run`, and ends with
//! its status. To a person at a terminal it also tells what the lines of a run mean, and what to do.
#![tactic(auto)]

mod count_again;
mod device;
mod disks;
mod first_write;
mod guarded;
mod root;
mod start;

use count_again::count_again;
use device::{folder_in, is_device};
use disks::{Person, guarded_disk};
use host_edge::{LineSink, Sink, StatusLine, StdSink, csum_type_at, hold_streams};
use reiserconv_talk::reiserconv_words::{Asked, Verb};
use reiserconv_talk::{Ended, How, Missing, Seen, Talk, tell_start};
use root::is_root;
use start::Start;
use std::alloc::Global;
use std::env::Env;
use std::fs::{File, Files};
use std::io::Write;
use std::process::ExitCode;
use std::random::RandomSource;
use std::time::Clock;
use volume_app::run;

/// The status where the arguments, the clock or the random source failed.
const START_FAULT: u8 = 7;

/// The status where a person did not confirm what was asked for, and the line.
const NOT_CONFIRMED: u8 = 1;

const NOT_CONFIRMED_LINE: &[u8] = b"not confirmed\n";

fn main(rt: HostRuntime) -> ExitCode {
    let start = begin(&rt);
    let shown = StatusLine::new(rt.stderr(), &rt);
    let mut err = LineSink::new(StdSink::new(rt.stderr(), &shown));
    let mut out = LineSink::new(StdSink::new(rt.stdout(), &shown));
    let status = match start {
        Ok(start) => {
            let person = Person {
                keyboard: rt.stdin(),
                screen: rt.stderr(),
            };
            serve(&rt, &start, &shown, person, &mut out, &mut err)
        }
        Err(missing) => {
            let _ = err.write(b"start fault\n");
            tell_start(rt.alloc(), missing, &shown, &mut err);
            START_FAULT
        }
    };
    ExitCode::from(status)
}

/// What the run starts with, once no file that is opened can get the number of a standard stream.
fn begin<R: Env + Clock + RandomSource + Files<File = File> + AllocGlobal>(
    rt: &R,
) -> Result<Start, Missing> {
    if hold_streams(rt).is_err() {
        return Err(Missing::Streams);
    }
    Start::new(rt)
}

/// Does what the words ask for, and answers the status.
///
/// The line of the run is passed on behind it: in its place stands another one where a person did not want what the run was about to do.
fn serve<
    'a,
    R: Files<File = File> + AllocGlobal + Clock + Copy + Drop,
    O: Write + Drop,
    W: Write + Drop,
>(
    rt: R,
    start: &'a Start,
    shown: &'a StatusLine,
    person: Person,
    out: &mut LineSink<'_, O>,
    err: &mut LineSink<'_, W>,
) -> u8 {
    let asked = Asked::new(&start.words);
    let talk = Talk::new(rt.alloc(), &start.words, asked, shown);
    let mut disk = guarded_disk(rt, &asked, talk.as_ref(), shown, person);
    let mut line = kept_line(rt.alloc(), shown);
    let status = run(
        rt.alloc(),
        &start.words,
        start.ids,
        start.now,
        &mut disk,
        out,
        &mut line,
    );
    shown.wipe();
    let how = How {
        trouble: disk.disk.trouble(),
        wrote: disk.disk.written() > 0,
        is_root: is_root(&rt),
        is_device: asked.is_trial() && is_device(&rt, asked.path),
    };
    if disk.is_stopped() {
        let ended = Ended::new(NOT_CONFIRMED, NOT_CONFIRMED_LINE, how);
        tell_end(rt, start, talk.as_ref(), &ended, shown, out, err);
        return NOT_CONFIRMED;
    }
    let ended = Ended::new(status, line.line(), how);
    tell_end(rt, start, talk.as_ref(), &ended, shown, out, err);
    status
}

/// A sink that keeps the line of a run, and passes nothing on.
fn kept_line<'a>(alloc: Global, shown: &'a StatusLine) -> LineSink<'a, Vec<u8>> {
    LineSink::new(StdSink::new(Vec::new(alloc), shown))
}

/// Passes on the line of a run that ended so, and tells what its lines mean.
fn tell_end<
    R: Files<File = File> + AllocGlobal + Clock + Copy + Drop,
    O: Write + Drop,
    W: Write + Drop,
>(
    rt: R,
    start: &Start,
    talk: Option<&Talk<'_>>,
    ended: &Ended<'_>,
    shown: &StatusLine,
    out: &LineSink<'_, O>,
    err: &mut LineSink<'_, W>,
) {
    let Some(talk) = talk else {
        let _ = err.write(ended.line);
        return;
    };
    let seen = look_again(rt, start, talk, ended.status, shown, out);
    shown.wipe();
    let _ = err.write(ended.line);
    talk.end(ended, &seen, out, err);
}

/// Looks behind a run for what a person is told beside its lines.
fn look_again<R: Files<File = File> + AllocGlobal + Clock + Copy + Drop, O: Write + Drop>(
    rt: R,
    start: &Start,
    talk: &Talk<'_>,
    status: u8,
    shown: &StatusLine,
    out: &LineSink<'_, O>,
) -> Seen {
    let again = if talk.lacks_space(status, out) {
        count_again(rt, start, shown).ok()
    } else {
        None
    };
    let is_trial = Verb::first_of(&start.words) == Some(Verb::Trial);
    let folder = if is_trial && talk.verb().is_none() {
        folder_in(&rt, &start.words)
    } else {
        None
    };
    let csum_type = if status == 0 && talk.verb() == Some(Verb::Inspect) {
        csum_type_at(&rt, talk.place()).unwrap_or(None)
    } else {
        None
    };
    Seen {
        again,
        folder,
        csum_type,
    }
}
