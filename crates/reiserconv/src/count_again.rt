// Further looks at a volume whose space does not suffice for what was asked for, each by other options.
use crate::disks::disk_for;
use crate::first_write::FirstWrite;
use crate::guarded::GuardedDisk;
use crate::start::Start;
use host_edge::{LineSink, StatusLine, StdSink, Task};
use reiserconv_talk::reiserconv_words::{Asked, Verb, Wanted};
use reiserconv_talk::{Counted, Recount, Space, changes};
use std::alloc::AllocError;
use std::fs::{File, Files};
use std::io::Stderr;
use std::str;
use std::time::Clock;
use volume_app::run;

/// Counts again what inspecting a volume with these words counts, with each change. What can't be looked at again is left out.
pub fn count_again<R: Files<File = File> + AllocGlobal + Clock + Copy + Drop>(
    rt: R,
    start: &Start,
    shown: &StatusLine,
) -> Result<Recount, AllocError> {
    let wanted = Wanted::new(&start.words);
    let changes = changes(rt.alloc(), wanted)?;
    let mut found = Recount::new();
    let mut time = 0_u64;
    for change in &changes {
        let of = changes.len() as u64;
        let words = wanted.words(rt.alloc(), Verb::Inspect, Some(*change))?;
        if let Some(space) = count(rt, start, &words, shown, Task::InspectAgain { time, of }) {
            found.add(Counted {
                change: *change,
                space,
            });
        }
        time = time.saturating_add(1);
    }
    Ok(found)
}

/// The space that `inspect` counts by these words, in a further look at the volume, which is told as this task.
fn count<R: Files<File = File> + AllocGlobal + Clock + Copy + Drop>(
    rt: R,
    start: &Start,
    words: &[String],
    shown: &StatusLine,
    task: Task,
) -> Option<Space> {
    let alloc = rt.alloc();
    let mut out = LineSink::new(StdSink::new(Vec::new(alloc), shown));
    let mut err = LineSink::new(StdSink::new(Vec::new(alloc), shown));
    let mut inner = disk_for(rt, shown, &Asked::new(words));
    inner.expect(task);
    let mut disk = GuardedDisk::new(inner, Option::<FirstWrite<'_, R, Stderr>>::None);
    let status = run(
        alloc, words, start.ids, start.now, &mut disk, &mut out, &mut err,
    );
    if status == 0 {
        Space::printed(str::from_utf8(out.line()).ok()?)
    } else {
        None
    }
}
