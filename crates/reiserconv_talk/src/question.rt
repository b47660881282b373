// A rollback of a volume that was written to since the conversion asks a person first.
use crate::paragraph::Paragraph;
use host_edge::{Sink, StatusLine, StdSink, generation_at};
use reiserconv_words::{Asked, Verb, quoted};
use std::alloc::{AllocError, Global};
use std::fs::{File, Files};
use std::io::{Input, IsTerminal, Stdin, Write};
use std::time::{Clock, Instant};

/// The generation of the volume that a conversion writes. Each mount for writing makes it a higher one.
const CONVERTED: u64 = 1;

const LOSES: &str =
    "The way back is open: a rollback makes {path} the old volume again. But it was written to since the conversion, as each mount that is not read-only does, and all of that is lost then: new files, and what was done to the old ones. To keep some of it, answer 'no', and copy it elsewhere first.";

const QUESTION: &[u8] = b"Roll it back all the same? ('yes' or 'no') ";

/// A line that comes within so many milliseconds behind the question was typed before it: nobody reads the question and answers it so fast.
const NO_ANSWER: u128 = 300;

/// So many lines that were typed before the question are passed over.
const LINES: u64 = 100;

const TYPED_BEFORE: &[u8] = b"That was typed before the question, and is no answer.\n";

/// What a person is asked before a rollback.
#[derive(Drop)]
pub struct Question<'a> {
    path: &'a str,
    keyboard: Stdin,
}

impl<'a> Question<'a> {
    /// Only a rollback asks, and only where somebody sees the question and can answer it: where standard input and standard error are terminals.
    pub fn of(asked: &Asked<'a>, shown: &StatusLine, keyboard: Stdin) -> Option<Question<'a>> {
        if asked.verb == Some(Verb::Rollback) && shown.is_seen() && keyboard.is_terminal() {
            Some(Question {
                path: asked.path,
                keyboard,
            })
        } else {
            None
        }
    }

    /// Whether to go on. Of a volume that nobody has written to nothing is asked.
    pub fn is_confirmed<R: Files<File = File> + AllocGlobal + Clock, W: Write + Drop>(
        &self,
        rt: &R,
        err: &mut StdSink<'_, W>,
    ) -> bool {
        match generation_at(rt, self.path) {
            Ok(Some(generation)) if generation == CONVERTED => true,
            _ => self.ask(rt, err) == Ok(true),
        }
    }

    /// Asks, and returns whether the answer is yes. Lines that stood there before the question are no answer.
    fn ask<R: AllocGlobal + Clock, W: Write + Drop>(
        &self,
        rt: &R,
        err: &mut StdSink<'_, W>,
    ) -> Result<bool, AllocError> {
        let text = loss(rt.alloc(), self.path)?;
        let _ = err.write(text.as_bytes());
        for _ in 0..LINES {
            let _ = err.write(QUESTION);
            let began = Instant::now(rt);
            let mut answer = String::new(rt.alloc());
            let is_read = self.keyboard.read_line(&mut answer).is_ok();
            if !answer.as_str().ends_with('\n') {
                let _ = err.write(b"\n");
                return Ok(false);
            }
            match began.and_then(|began| began.elapsed(rt)) {
                Ok(time) if time.as_millis() < NO_ANSWER => {
                    let _ = err.write(TYPED_BEFORE);
                }
                Ok(_) => return Ok(is_read && is_yes(answer.as_str())),
                Err(_) => return Ok(false),
            }
        }
        Ok(false)
    }
}

/// Whether an answer is yes, and nothing else.
pub fn is_yes(answer: &str) -> bool {
    answer.trim().eq_ignore_ascii_case("yes")
}

/// What a rollback loses, with the path as a shell reads it.
fn loss(alloc: Global, path: &str) -> Result<String, AllocError> {
    let path = quoted(alloc, path)?;
    let mut text = Paragraph::new(alloc, path.as_str());
    text.say(LOSES, &[])?;
    text.end()?;
    Ok(text.into_text())
}
