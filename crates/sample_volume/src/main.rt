//! The program `sample_volume`: it makes the disk and the sink, calls `run` of `reiser_make_app`, and ends with its status.
#![tactic(auto)]

use host_edge::{FileDisk, Sink, StatusLine, StdSink, hold_streams};
use reiser_make_app::run;
use std::env::Env;
use std::fs::{File, Files};
use std::process::ExitCode;
use std::{env, io};

/// The status where the arguments could not be read.
const START_FAULT: u8 = 7;

fn main(rt: HostRuntime) -> ExitCode {
    let words = begin(&rt);
    let line = StatusLine::none();
    let mut err = StdSink::new(rt.stderr(), &line);
    let Ok(words) = words else {
        let _ = err.write(b"start fault\n");
        return ExitCode::from(START_FAULT);
    };
    let mut disk = FileDisk::new(&rt, &line);
    disk.expect_blank();
    let status = run(rt.alloc(), &words, &mut disk, &mut err);
    ExitCode::from(status)
}

/// The words of the command line, once no file that is opened can get the number of a standard stream.
fn begin<R: Env + Files<File = File> + AllocGlobal>(rt: &R) -> io::Result<Vec<String>> {
    hold_streams(rt)?;
    words(rt)
}

/// The words of the command line, without the program's name.
fn words<R: Env + AllocGlobal>(rt: &R) -> io::Result<Vec<String>> {
    let mut words = Vec::new(rt.alloc());
    for word in env::args(rt)?.skip(1) {
        words.push(word)?;
    }
    Ok(words)
}
