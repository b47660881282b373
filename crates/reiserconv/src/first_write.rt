// What a person is asked and told before a command writes its first block.
use crate::guarded::Guard;
use host_edge::{Sink, StdSink};
use reiserconv_talk::Question;
use std::fs::{File, Files};
use std::io::Write;
use std::time::Clock;

/// How far a command is.
#[derive(Clone, Copy, Debug, PartialEq, Eq)]
enum Stage {
    /// It has written nothing, and only looked.
    Looking,
    /// It was let write.
    Writing,
    /// A person does not want it.
    Declined,
}

/// Asks a person, where there is a question, and tells what has to be known of a command that writes: both right before its first block, when
/// all that may refuse it is looked at.
#[derive(Drop)]
pub struct FirstWrite<
    'a,
    R: Files<File = File> + AllocGlobal + Clock + Clone + Drop,
    W: Write + Drop,
> {
    rt: R,
    question: Option<Question<'a>>,
    notice: Option<String>,
    err: StdSink<'a, W>,
    stage: Stage,
}

impl<'a, R: Files<File = File> + AllocGlobal + Clock + Clone + Drop, W: Write + Drop> FirstWrite<
    'a,
    R,
    W,
> {
    /// Nothing was asked or told yet. All of it goes to this sink.
    pub fn new(
        rt: R,
        question: Option<Question<'a>>,
        notice: Option<String>,
        err: StdSink<'a, W>,
    ) -> FirstWrite<'a, R, W> {
        FirstWrite {
            rt,
            question,
            notice,
            err,
            stage: Stage::Looking,
        }
    }

    fn is_wanted(&mut self) -> bool {
        match &self.question {
            Some(question) => question.is_confirmed(&self.rt, &mut self.err),
            None => true,
        }
    }

    fn begin(&mut self) {
        if let Some(text) = &self.notice {
            let _ = self.err.write(text.as_bytes());
        }
        self.stage = Stage::Writing;
    }
}

impl<R: Files<File = File> + AllocGlobal + Clock + Clone + Drop, W: Write + Drop> Guard
    for FirstWrite<'_, R, W> {
    fn lets_write(&mut self) -> bool {
        if self.stage == Stage::Looking {
            if self.is_wanted() {
                self.begin();
            } else {
                self.stage = Stage::Declined;
            }
        }
        self.stage == Stage::Writing
    }
}
