use crate::advice::{Outcome, advice, start_advice};
use crate::missing::Missing;
use crate::notices::{Done, before, behind};
use crate::recount::Recount;
use crate::space::Space;
use host_edge::{LineSink, StatusLine, Trouble};
use reiserconv_words::{Asked, Verb, Wanted, quoted};
use std::alloc::Global;
use std::io::Write;
use std::str;

/// What a person is told of a run, beside its lines.
#[derive(Drop)]
pub struct Talk<'a> {
    alloc: Global,
    words: &'a [String],
    asked: Asked<'a>,
    /// The path, as a shell reads it.
    path: String,
}

/// How a run ended, beside its line.
#[derive(Clone, Copy)]
pub struct How {
    /// Why the last call of the device failed, if one did.
    pub trouble: Option<Trouble>,
    /// Whether a block was written, whole or in part.
    pub wrote: bool,
    /// Whether it ran as root.
    pub is_root: bool,
    /// Whether its path is that of a block device, of a trial; of other commands it is not asked.
    pub is_device: bool,
}

/// The end of a run.
#[derive(Clone, Copy)]
pub struct Ended<'a> {
    pub status: u8,
    /// Its line for standard error, with its line feed; nothing where it is done.
    pub line: &'a [u8],
    pub how: How,
}

impl<'a> Ended<'a> {
    /// With this status and this line.
    pub fn new(status: u8, line: &'a [u8], how: How) -> Ended<'a> {
        Ended { status, line, how }
    }
}

/// What was looked for behind a run, for a person.
#[derive(Clone, Copy)]
pub struct Seen {
    /// What was counted with something else than was asked for, where the space does not suffice.
    pub again: Option<Recount>,
    /// Which of the words is the path of a folder, from 0 on, of a trial with wrong words.
    pub folder: Option<usize>,
    /// The number of the kind of checksum of a Btrfs volume that was inspected.
    pub csum_type: Option<u16>,
}

impl<'a> Talk<'a> {
    /// There is one where standard error is a terminal, or the words ask for it. Without memory there is none.
    pub fn new(
        alloc: Global,
        words: &'a [String],
        asked: Asked<'a>,
        shown: &StatusLine,
    ) -> Option<Talk<'a>> {
        if !shown.is_seen() && !asked.verbose {
            return None;
        }
        match quoted(alloc, asked.path) {
            Ok(path) => Some(Talk {
                alloc,
                words,
                asked,
                path,
            }),
            Err(_) => None,
        }
    }

    /// The command, where the words ask for one.
    pub fn verb(&self) -> Option<Verb> {
        self.asked.verb
    }

    /// The path, as it was given.
    pub fn place(&self) -> &'a str {
        self.asked.path
    }

    /// What is to be told before the run writes its first block.
    pub fn notice(&self) -> Option<String> {
        before(self.alloc, &self.asked, self.path.as_str()).ok()
    }

    /// Whether a volume was looked at that has too little space for what was asked for.
    pub fn lacks_space<O: Write + Drop>(&self, status: u8, out: &LineSink<'_, O>) -> bool {
        if status != 0 || self.asked.verb != Some(Verb::Inspect) {
            return false;
        }
        match str::from_utf8(out.line()) {
            Ok(text) => match Space::printed(text) {
                Some(space) => !space.suffices(),
                None => false,
            },
            Err(_) => false,
        }
    }

    /// Tells what the lines of the run mean, and what to do.
    pub fn end<O: Write + Drop, W: Write + Drop>(
        &self,
        ended: &Ended<'_>,
        seen: &Seen,
        out: &LineSink<'_, O>,
        err: &mut LineSink<'_, W>,
    ) {
        let text = if ended.status == 0 {
            let done = Done {
                printed: out.line(),
                wanted: Wanted::new(self.words),
                again: seen.again.as_ref(),
                is_device: ended.how.is_device,
                csum_type: seen.csum_type,
            };
            behind(self.alloc, &self.asked, self.path.as_str(), &done)
        } else {
            let outcome = Outcome {
                line: ended.line,
                trouble: ended.how.trouble,
                wrote: ended.how.wrote,
                verb: self.asked.verb,
                is_root: ended.how.is_root,
                words: self.words,
                folder: seen.folder,
                path: self.path.as_str(),
            };
            advice(self.alloc, &outcome)
        };
        if let Ok(text) = text {
            let _ = err.pass(text.as_bytes());
        }
    }
}

/// Tells a person at a terminal why the program could not start.
pub fn tell_start<W: Write + Drop>(
    alloc: Global,
    missing: Missing,
    shown: &StatusLine,
    err: &mut LineSink<'_, W>,
) {
    if shown.is_seen() {
        if let Ok(text) = start_advice(alloc, missing) {
            let _ = err.pass(text.as_bytes());
        }
    }
}
