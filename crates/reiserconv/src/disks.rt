// The disk of a run, and the guard before it.
ghost use Rattle.std.specs.Prelude.{◌≡◌, None};
ghost use Rattle.host_edge.specs.FileDisk.{opened_for};

use crate::first_write::FirstWrite;
use crate::guarded::GuardedDisk;
use host_edge::{FileDisk, StatusLine, StdSink};
use reiserconv_talk::reiserconv_words::Asked;
use reiserconv_talk::{Question, Talk};
use std::fs::{File, Files};
use std::io::{Stderr, Stdin};
use std::time::Clock;

/// The streams by which a person is asked and answers while a run goes on.
#[derive(Drop)]
pub struct Person {
    pub keyboard: Stdin,
    pub screen: Stderr,
}

/// The disk of a run. That of a trial is to be overwritten.
pub fn disk_for<'a, R: Files<File = File> + AllocGlobal + Clock + Clone + Drop>(
    files: R,
    line: &'a StatusLine,
    asked: &Asked<'_>,
) -> FileDisk<'a, R>
    ensures { opened_for result ≡ None }
{
    let mut disk = FileDisk::new(files, line);
    disk.expect(asked.task());
    if asked.is_trial() {
        disk.expect_blank();
    }
    disk
}

/// The same disk, behind what a person is asked and told before its first block is written.
pub fn guarded_disk<'a, R: Files<File = File> + AllocGlobal + Clock + Copy + Drop>(
    rt: R,
    asked: &Asked<'a>,
    talk: Option<&Talk<'_>>,
    shown: &'a StatusLine,
    person: Person,
) -> GuardedDisk<FileDisk<'a, R>, FirstWrite<'a, R, Stderr>>
    ensures { opened_for result.disk ≡ None }
{
    let notice = match talk {
        Some(talk) => talk.notice(),
        None => None,
    };
    let first = FirstWrite::new(
        rt,
        Question::of(asked, shown, person.keyboard),
        notice,
        StdSink::new(person.screen, shown),
    );
    GuardedDisk::new(disk_for(rt, shown, asked), Some(first))
}
