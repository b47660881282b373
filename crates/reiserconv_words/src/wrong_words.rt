// What is wrong with the words of a command line that are no command.
use crate::asked::Verb;
use crate::finding::Finding;
use crate::foreign::of_others;
use crate::nearest::nearest;
use crate::options::{Choice, option_words};
use std::alloc::{AllocError, Global};

/// The largest number of files of a trial.
const MOST_FILES: u64 = 4000;

const NO_COMMAND: &str =
    "The command is missing: inspect, list, convert, recover, rollback or trial.";

const UNKNOWN_COMMAND: &str =
    "'{1}' is no command: there are inspect, list, convert, recover, rollback and trial.";

const NEAR_COMMAND: &str = "'{1}' is no command. Did you mean '{2}'?";

const PATH_FIRST: &str =
    "The command stands before the path, for example 'reiserconv inspect {1}'.";

const OPTION_FIRST: &str =
    "The command stands before the options, and '{1}' behind it, for example 'reiserconv convert {1}'.";

const WITHOUT_DASHES: &str = "'{1}' is '--{1}' here.";

/// The first thing that is wrong, if one is found. `folder` is a word that is the path of a folder, if one is known.
pub fn find(
    alloc: Global,
    words: &[String],
    folder: Option<&str>,
) -> Result<Option<Finding>, AllocError> {
    match words {
        [] => Ok(Some(Finding::new(alloc, NO_COMMAND, "", "")?)),
        [first, rest @ ..] => match Verb::named(first.as_str()) {
            Some(verb) => find_behind(Scan::new(alloc, verb, folder), rest),
            None => Ok(Some(no_command(alloc, first.as_str())?)),
        },
    }
}

/// What is wrong with a first word that is no command.
fn no_command(alloc: Global, word: &str) -> Result<Finding, AllocError> {
    if Choice::named(word).is_some() {
        return Finding::new(alloc, OPTION_FIRST, word, "");
    }
    if let Some(sentence) = of_others(word) {
        return Finding::new(alloc, sentence, word, "");
    }
    if word == "help" || word == "version" {
        return Finding::new(alloc, WITHOUT_DASHES, word, "");
    }
    if word.contains('/') {
        return Finding::new(alloc, PATH_FIRST, word, "");
    }
    match nearest(alloc, word, command_words())? {
        Some(name) => Finding::new(alloc, NEAR_COMMAND, word, name),
        None => Finding::new(alloc, UNKNOWN_COMMAND, word, ""),
    }
}

fn command_words() -> &'static [&'static str] {
    &["inspect", "list", "convert", "recover", "rollback", "trial"]
}

/// What is wrong with the words behind a command.
fn find_behind(mut scan: Scan<'_>, words: &[String]) -> Result<Option<Finding>, AllocError> {
    let mut before = words.iter();
    let _ = before.next();
    for word in words {
        let next = match before.next() {
            Some(next) => next.as_str(),
            None => "",
        };
        let wrong = scan.take(word.as_str(), next)?;
        if wrong.is_some() {
            return Ok(wrong);
        }
    }
    let last = match words.last() {
        Some(word) => word.as_str(),
        None => "",
    };
    scan.end(last)
}

/// What the next word is to be.
#[derive(Clone, Copy, Debug, PartialEq, Eq)]
enum Next {
    /// An option, or else the first of what has to stand behind the options.
    Any,
    /// The value of an option.
    Value(Choice),
    /// The path of a trial, whose number was there.
    Path,
    /// None: the path was there.
    Nothing,
}

/// A look at the words behind a command, one after the other.
#[derive(Drop)]
struct Scan<'a> {
    alloc: Global,
    verb: Verb,
    /// A word that is the path of a folder, if one is known.
    folder: Option<&'a str>,
    next: Next,
    given: Vec<Choice>,
    /// The option whose value the last word was, if it was one.
    valued: Option<Choice>,
}

const NO_PATH: &str =
    "The path is missing behind '{1}': that of the partition, or of a file with the volume.";

const NO_PATH_BEHIND_VALUE: &str =
    "The path is missing: '{1}' is the value of '{2}', and the path stands behind it.";

const EMPTY_PATH: &str = "The path is empty. Perhaps a variable of the shell has no value.";

const NO_NUMBER: &str =
    "The number of files is missing behind '{1}', from 0 to 4000, and the path behind it.";

const NO_VALUE: &str = "A value is missing behind '{1}'.";

const PATH_OF_TRIAL: &str =
    "The path is missing behind the number: that of a file or a device that is to be overwritten.";

const BEHIND_PATH: &str = "'{1}' stands behind the path: options stand before it.";

const TOO_MANY: &str =
    "'{1}' is a word too many: one path is taken. A path with spaces has to be quoted.";

const NOT_OF_COMMAND: &str = "'{2}' has no option '{1}'.";

const TWICE: &str = "'{1}' is given twice.";

const EXCLUDED: &str =
    "'{1}' can't stand beside '{2}': of '--label' and '--copy-label' one can be given.";

const WITH_EQUALS: &str = "The value stands behind a space here: write '{1} {2}'.";

const WITHOUT_VALUE: &str = "'{1}' takes no value.";

const BEHIND_NUMBER: &str = "'{1}' stands behind the number: options stand before it.";

const NEAR_OPTION: &str = "There is no option '{1}'. Did you mean '{2}'?";

const UNKNOWN_OPTION: &str = "'{2}' has no option '{1}'. If it is the path, write './{1}'.";

const OUT_OF_RANGE: &str =
    "'{1}' is no number of files: it goes from 0 to 4000, without zeros or a sign before it.";

const NUMBER_FIRST: &str =
    "'{1}' is no number of files: the number stands before the path, for example 'reiserconv trial 1000 {1}'.";

const SWAPPED: &str =
    "'{1}' is no number of files: the number stands before the path, so 'reiserconv trial {2} {1}'.";

const NO_NUMBER_OF_FILES: &str =
    "'{1}' is no number of files, from 0 to 4000: for example 'reiserconv trial 1000 {2}'.";

/// The same three where the path is that of a folder.
const NUMBER_FIRST_IN: &str =
    "'{1}' is no number of files: the number stands before the path, and the path is that of a file, not of a folder, for example 'reiserconv trial 1000 {1}/scratch.img'.";

const SWAPPED_IN: &str =
    "'{1}' is no number of files: the number stands before the path, and the path is that of a file, not of a folder, so 'reiserconv trial {2} {1}/scratch.img'.";

const NO_NUMBER_OF_FILES_IN: &str =
    "'{1}' is no number of files, from 0 to 4000, and '{2}' is a folder: for example 'reiserconv trial 1000 {2}/scratch.img'.";

impl<'a> Scan<'a> {
    fn new(alloc: Global, verb: Verb, folder: Option<&'a str>) -> Scan<'a> {
        Scan {
            alloc,
            verb,
            folder,
            next: Next::Any,
            given: Vec::new(alloc),
            valued: None,
        }
    }

    /// Looks at a word, and says what is wrong with it. The next one stands behind it; it is empty where there is none.
    fn take(&mut self, word: &str, next: &str) -> Result<Option<Finding>, AllocError> {
        self.valued = None;
        match self.next {
            Next::Value(choice) => {
                self.next = Next::Any;
                self.valued = Some(choice);
                choice.wrong_value(self.alloc, word)
            }
            Next::Any if word.starts_with('-') => self.take_option(word),
            Next::Any if self.verb == Verb::Trial => self.take_number(word, next),
            Next::Any | Next::Path => self.take_path(word),
            Next::Nothing if word.starts_with('-') => self.tell(BEHIND_PATH, word, ""),
            Next::Nothing => self.tell(TOO_MANY, word, ""),
        }
    }

    /// What is wrong with the words where they end here, with this one.
    fn end(&self, last: &str) -> Result<Option<Finding>, AllocError> {
        if let (Next::Any, Some(choice)) = (self.next, self.valued) {
            return self.tell(NO_PATH_BEHIND_VALUE, last, choice.word());
        }
        match (self.next, self.verb) {
            (Next::Nothing, _) => Ok(None),
            (Next::Value(choice), _) => self.tell(NO_VALUE, choice.word(), ""),
            (Next::Path, _) => self.tell(PATH_OF_TRIAL, "", ""),
            (Next::Any, Verb::Trial) => self.tell(NO_NUMBER, "trial", ""),
            (Next::Any, verb) => self.tell(NO_PATH, verb.name(), ""),
        }
    }

    fn tell(
        &self,
        sentence: &'static str,
        first: &str,
        second: &str,
    ) -> Result<Option<Finding>, AllocError> {
        Ok(Some(Finding::new(self.alloc, sentence, first, second)?))
    }

    fn take_option(&mut self, word: &str) -> Result<Option<Finding>, AllocError> {
        let Some(choice) = Choice::named(word) else {
            return self.unknown_option(word);
        };
        if !choice.is_of(self.verb) {
            return self.tell(NOT_OF_COMMAND, word, self.verb.name());
        }
        for other in self.given.as_slice() {
            if choice == *other {
                return self.tell(TWICE, word, "");
            }
            if choice.excludes(*other) {
                return self.tell(EXCLUDED, word, other.word());
            }
        }
        self.given.push(choice)?;
        if choice.has_value() {
            self.next = Next::Value(choice);
        }
        Ok(None)
    }

    fn unknown_option(&self, word: &str) -> Result<Option<Finding>, AllocError> {
        if self.verb == Verb::Trial && is_below_zero(word) {
            return self.tell(OUT_OF_RANGE, word, "");
        }
        if let Some((front, value)) = word.split_once('=') {
            if let Some(choice) = Choice::named(front) {
                return self.with_equals(choice, value);
            }
        }
        if let Some(sentence) = of_others(word) {
            return self.tell(sentence, word, "");
        }
        match nearest(self.alloc, word, option_words())? {
            Some(name) => self.tell(NEAR_OPTION, word, name),
            None => self.tell(UNKNOWN_OPTION, word, self.verb.name()),
        }
    }

    /// What is wrong with an option and a value that have an equals sign between them.
    fn with_equals(&self, choice: Choice, value: &str) -> Result<Option<Finding>, AllocError> {
        if choice.has_value() {
            self.tell(WITH_EQUALS, choice.word(), value)
        } else {
            self.tell(WITHOUT_VALUE, choice.word(), "")
        }
    }

    fn take_number(&mut self, word: &str, next: &str) -> Result<Option<Finding>, AllocError> {
        self.next = Next::Path;
        if is_number_of_files(word) {
            Ok(None)
        } else if word.bytes().all(|byte| byte.is_ascii_digit()) || word.parse::<u64>().is_ok() {
            self.tell(OUT_OF_RANGE, word, "")
        } else if is_number_of_files(next) {
            self.tell_path(word, [SWAPPED, SWAPPED_IN], word, next)
        } else if next.is_empty() || next.starts_with('-') {
            self.tell_path(word, [NUMBER_FIRST, NUMBER_FIRST_IN], word, "")
        } else {
            let sentences = [NO_NUMBER_OF_FILES, NO_NUMBER_OF_FILES_IN];
            self.tell_path(next, sentences, word, next)
        }
    }

    /// Tells by the first of two sentences, or by the second where this path is that of a folder.
    fn tell_path(
        &self,
        path: &str,
        sentences: [&'static str; 2],
        first: &str,
        second: &str,
    ) -> Result<Option<Finding>, AllocError> {
        let [plain, in_folder] = sentences;
        let is_folder = self.folder == Some(path);
        self.tell(if is_folder { in_folder } else { plain }, first, second)
    }

    fn take_path(&mut self, word: &str) -> Result<Option<Finding>, AllocError> {
        self.next = Next::Nothing;
        if word.is_empty() {
            self.tell(EMPTY_PATH, "", "")
        } else if Choice::named(word).is_some() {
            self.tell(BEHIND_NUMBER, word, "")
        } else if word.starts_with('-') {
            self.tell(UNKNOWN_OPTION, word, self.verb.name())
        } else {
            Ok(None)
        }
    }
}

/// Whether a word is a number that a trial may have.
fn is_number_of_files(word: &str) -> bool {
    match word.parse::<u64>() {
        Ok(number) => number <= MOST_FILES && !has_sign_or_zero(word),
        Err(_) => false,
    }
}

/// Whether a word is a number with a minus sign.
fn is_below_zero(word: &str) -> bool {
    match word.strip_prefix("-") {
        Some(digits) => digits.parse::<u64>().is_ok(),
        None => false,
    }
}

/// Whether a number has a sign or a zero before its digits.
fn has_sign_or_zero(word: &str) -> bool {
    word.starts_with('+') || (word.starts_with('0') && word.len() > 1)
}
