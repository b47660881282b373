// What a person at a terminal is told below the line of a run: what it means, what is safe, and what to do.
use crate::missing::Missing;
use crate::paragraph::Paragraph;
use crate::sentences::{
    Sentence, of_btrfs_rule, of_command, of_fault, of_feature, of_line, of_refusal, of_rule,
    of_safety, of_start,
};
use crate::space::Space;
use host_edge::{Cause, DiskCall, Trouble, Use};
use reiserconv_words::{Verb, Wanted, find};
use std::alloc::{AllocError, Global};
use std::io::ErrorKind;
use std::str;

/// How a run ended that was not done.
#[derive(Drop)]
pub struct Outcome<'a> {
    /// The line on the error sink, with its line feed.
    pub line: &'a [u8],
    /// Why the last call of the device failed, if one did.
    pub trouble: Option<Trouble>,
    /// Whether a block was written, whole or in part.
    pub wrote: bool,
    /// The command, where the words ask for one.
    pub verb: Option<Verb>,
    /// Whether it ran as root.
    pub is_root: bool,
    /// The words, without the program's name.
    pub words: &'a [String],
    /// Which of them is the path of a folder, from 0 on, where that was looked for.
    pub folder: Option<usize>,
    /// The path of the run, as a shell reads it.
    pub path: &'a str,
}

impl Outcome<'_> {
    /// Whether it was a trial, on a device that is to be overwritten.
    fn is_trial(&self) -> bool {
        self.verb == Some(Verb::Trial)
    }

    /// The word that is the path of a folder, if one is known.
    fn folder(&self) -> Option<&str> {
        match self.words.get(self.folder?) {
            Some(word) => Some(word.as_str()),
            None => None,
        }
    }
}

/// The text for a person. It has a line feed at its end, and nothing where nothing is known of the line.
pub fn advice(alloc: Global, outcome: &Outcome<'_>) -> Result<String, AllocError> {
    let mut text = Paragraph::new(alloc, outcome.path);
    let line = str::from_utf8(outcome.line).unwrap_or("").trim_end();
    match line.strip_prefix("refused ") {
        Some(words) => tell_refusal(alloc, &mut text, words, outcome)?,
        None => tell_line(alloc, &mut text, line, outcome)?,
    }
    Ok(text.into_text())
}

/// The text for a person where the program could not start.
pub fn start_advice(alloc: Global, missing: Missing) -> Result<String, AllocError> {
    let mut text = Paragraph::new(alloc, "");
    let sentence = of_start(match missing {
        Missing::Streams => "streams",
        Missing::Text => "text",
        Missing::Memory => "memory",
        Missing::Time => "time",
        Missing::Random => "random",
    });
    text.say(sentence.means, &[])?;
    text.end()?;
    tell_next(&mut text, sentence.next, &[])?;
    Ok(text.into_text())
}

/// A refusal, as its line tells it.
#[derive(Clone, Copy)]
struct Refusal<'a> {
    number: u64,
    numbers: &'a [&'a str],
}

impl<'a> Refusal<'a> {
    /// Reads a number, a word, and the numbers behind it.
    fn read(words: &'a [&'a str]) -> Option<Refusal<'a>> {
        match words {
            [number, _, numbers @ ..] => Some(Refusal {
                number: number.parse().ok()?,
                numbers,
            }),
            _ => None,
        }
    }

    /// What is said of the rule or the feature that one of the numbers names.
    fn detail(&self) -> Option<Sentence> {
        match self.number {
            3 => Some(of_feature(self.numbers.first()?.parse().ok()?)),
            6 => Some(of_rule(self.numbers.get(1)?.parse().ok()?)),
            13 => Some(of_btrfs_rule(self.numbers.get(1)?.parse().ok()?)),
            _ => None,
        }
    }

    /// What is said of it: what stands for this command, or else for all.
    fn sentence(&self, verb: Option<Verb>) -> Sentence {
        let own = match verb {
            Some(verb) => of_command(verb.name(), self.number),
            None => of_refusal(self.number),
        };
        if own.means.is_empty() {
            of_refusal(self.number)
        } else {
            own
        }
    }

    /// Tells what it means, and returns what to do.
    fn tell(
        &self,
        text: &mut Paragraph<'_>,
        verb: Option<Verb>,
    ) -> Result<&'static str, AllocError> {
        let sentence = self.sentence(verb);
        text.say(sentence.means, self.numbers)?;
        let mut next = sentence.next;
        if let Some(detail) = self.detail() {
            text.say(detail.means, self.numbers)?;
            if !detail.next.is_empty() {
                next = detail.next;
            }
        }
        Ok(next)
    }
}

/// The number of the refusal for want of space.
const SPACE: u64 = 15;

/// The number of the refusal of a saved image, behind whose word stands the image's own.
const IMAGE: u64 = 19;

/// What a text on a volume begins with.
const PATH: &str = "{path}:";

fn tell_refusal(
    alloc: Global,
    text: &mut Paragraph<'_>,
    line: &str,
    outcome: &Outcome<'_>,
) -> Result<(), AllocError> {
    let mut words = Vec::new(alloc);
    for word in line.split(' ') {
        words.push(word)?;
    }
    if let Some(refusal) = Refusal::read(words.as_slice()) {
        text.say(PATH, &[])?;
        let next = refusal.tell(text, outcome.verb)?;
        if refusal.number == IMAGE {
            if let Some(own) = Refusal::read(refusal.numbers) {
                let _ = own.tell(text, None)?;
            }
        }
        text.end()?;
        tell_safety(text, written(outcome, "free"))?;
        match space_of(&refusal, outcome.is_trial()) {
            Some(space) => { space.tell_what_helps(alloc, text, Wanted::new(outcome.words), None)? }
            None => tell_next(text, next, refusal.numbers)?,
        }
    }
    Ok(())
}

/// The space of a conversion that is refused for want of it.
fn space_of(refusal: &Refusal<'_>, is_trial: bool) -> Option<Space> {
    if refusal.number == SPACE && !is_trial {
        Space::refused(refusal.numbers)
    } else {
        None
    }
}

/// Tells of a line that is no refusal.
fn tell_line(
    alloc: Global,
    text: &mut Paragraph<'_>,
    line: &str,
    outcome: &Outcome<'_>,
) -> Result<(), AllocError> {
    if line.starts_with("usage: ") {
        return tell_wrong_words(alloc, text, outcome);
    }
    let sentence = of_line(line);
    if sentence.means.is_empty() {
        return Ok(());
    }
    text.say(PATH, &[])?;
    let next = match (line, outcome.trouble) {
        ("device fault", Some(trouble)) => tell_fault(alloc, text, &trouble, outcome)?,
        _ => {
            text.say(sentence.means, &[])?;
            sentence.next
        }
    };
    text.end()?;
    match line {
        "device fault" => tell_safety(text, written(outcome, "cut"))?,
        "out of memory" => tell_safety(text, written(outcome, "free"))?,
        "output fault" => tell_safety(text, "done")?,
        _ => {}
    }
    tell_next(text, next, &[])
}

/// Tells why a call of the device failed, and returns what to do.
fn tell_fault(
    alloc: Global,
    text: &mut Paragraph<'_>,
    trouble: &Trouble,
    outcome: &Outcome<'_>,
) -> Result<&'static str, AllocError> {
    let case = cause(trouble, outcome);
    if let Cause::System(_) | Cause::Holds(_) = trouble.cause {
        if case != ABSENT && case != UNTRIED {
            let reason = format!(in alloc; "{}.", trouble)?;
            text.say(reason.as_str(), &[])?;
        }
    }
    let fault = of_fault(case);
    text.say(fault.means, &[])?;
    Ok(fault.next)
}

/// Tells what is wrong with words that are no command.
fn tell_wrong_words(
    alloc: Global,
    text: &mut Paragraph<'_>,
    outcome: &Outcome<'_>,
) -> Result<(), AllocError> {
    let sentence = of_line("usage: ..");
    match find(alloc, outcome.words, outcome.folder())? {
        Some(finding) => {
            let parts = [finding.first.as_str(), finding.second.as_str()];
            text.say(finding.sentence, &parts)?;
        }
        None => text.say(sentence.means, &[])?,
    }
    text.end()?;
    tell_next(text, sentence.next, &[])
}

/// The name of what is safe: this one where something was written, and it was no trial.
fn written(outcome: &Outcome<'_>, case: &'static str) -> &'static str {
    match (outcome.wrote, outcome.is_trial()) {
        (false, _) => "nothing",
        (true, false) => case,
        (true, true) => "trial",
    }
}

fn tell_safety(text: &mut Paragraph<'_>, case: &str) -> Result<(), AllocError> {
    text.say(of_safety(case).means, &[])?;
    text.end()
}

fn tell_next(text: &mut Paragraph<'_>, next: &str, numbers: &[&str]) -> Result<(), AllocError> {
    if !next.is_empty() {
        text.say("What to do:", &[])?;
        text.say(next, numbers)?;
        text.end()?;
    }
    Ok(())
}

/// The name, in the table of sentences, of a path where nothing is.
const ABSENT: &str = "absent";

/// The same of a trial.
const UNTRIED: &str = "untried";

/// The same of what a trial finds that is neither a plain file nor a block device.
const UNFIT: &str = "unfit";

/// The cause's name in the table of sentences.
fn cause(trouble: &Trouble, outcome: &Outcome<'_>) -> &'static str {
    match trouble.cause {
        Cause::System(e) if trouble.call == DiskCall::Open => unopened(e.kind(), outcome),
        Cause::InUse(Use::Mounted) => "mounted",
        Cause::InUse(Use::Swap) => "swap",
        Cause::InUse(Use::Held) => "held",
        Cause::InUse(Use::Loop) => "loop",
        Cause::InUse(Use::Locked) => "locked",
        Cause::InUse(Use::Unknown) => "unknown",
        Cause::ReadOnly => "readonly",
        Cause::Holds(_) => "holds",
        Cause::Kind if outcome.is_trial() => UNFIT,
        Cause::Kind => "kind",
        Cause::System(_) | Cause::Closed => "device",
    }
}

/// The same of a path that the system did not open.
fn unopened(kind: ErrorKind, outcome: &Outcome<'_>) -> &'static str {
    match kind {
        ErrorKind::NotFound if outcome.is_trial() => UNTRIED,
        ErrorKind::NotFound => ABSENT,
        ErrorKind::PermissionDenied if outcome.is_root => "forbidden",
        ErrorKind::PermissionDenied => "denied",
        _ => "open",
    }
}
