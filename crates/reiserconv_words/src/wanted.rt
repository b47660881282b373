// What a conversion was asked for, and the commands that ask for the same.
use crate::asked::Verb;
use crate::options::Choice;
use crate::shell::quoted;
use std::alloc::{AllocError, Global};

/// The size of a node where none is asked for.
const USUAL_SIZE: &str = "16384";

/// One thing that may be asked for otherwise.
#[derive(Clone, Copy, Debug, PartialEq, Eq)]
pub enum Change {
    /// Nodes of so many bytes.
    Size(&'static str),
    /// This option is left out.
    Without(Choice),
}

/// What a conversion was asked for: all options that its space is counted with, whatever they are.
#[derive(Clone, Copy)]
pub struct Wanted<'a> {
    words: &'a [String],
}

impl<'a> Wanted<'a> {
    /// By the words of `inspect` or `convert`, without the program's name: the command, its options and its path.
    pub fn new(words: &'a [String]) -> Wanted<'a> {
        Wanted { words }
    }

    /// The words behind the command.
    fn behind(self) -> &'a [String] {
        match self.words {
            [_, behind @ ..] => behind,
            [] => &[],
        }
    }

    /// The value of an option that was given; nothing of one that has none.
    fn value_of(self, choice: Choice) -> Option<&'a str> {
        let mut valued: Option<Choice> = None;
        for word in self.behind() {
            if let Some(option) = valued {
                if option == choice {
                    return Some(word.as_str());
                }
                valued = None;
            } else {
                let option = Choice::named(word.as_str())?;
                if option.has_value() {
                    valued = Some(option);
                } else if option == choice {
                    return Some("");
                }
            }
        }
        None
    }

    /// Whether this option was given.
    pub fn has(self, choice: Choice) -> bool {
        self.value_of(choice).is_some()
    }

    /// The bytes of a node.
    pub fn size(self) -> &'a str {
        self.value_of(Choice::Nodesize).unwrap_or(USUAL_SIZE)
    }

    /// Whether the checksums are SHA-256, which are eight times as long as the usual ones.
    pub fn is_hashed(self) -> bool {
        self.value_of(Choice::Csum) == Some("sha256")
    }

    /// The words of a command on the same path, with the same options as far as it has them, and with this change.
    pub fn words(
        self,
        alloc: Global,
        verb: Verb,
        change: Option<Change>,
    ) -> Result<Vec<String>, AllocError> {
        let mut words = Vec::new(alloc);
        words.push(String::from_str(alloc, verb.name())?)?;
        if let Some(Change::Size(size)) = change {
            words.push(String::from_str(alloc, Choice::Nodesize.word())?)?;
            words.push(String::from_str(alloc, size)?)?;
        }
        let mut valued: Option<Choice> = None;
        for word in self.behind() {
            let option = match valued {
                Some(option) => Some(option),
                None => Choice::named(word.as_str()),
            };
            if stays(option, verb, change) {
                words.push(String::from_str(alloc, word.as_str())?)?;
            }
            valued = match option {
                Some(option) if valued.is_none() && option.has_value() => Some(option),
                _ => None,
            };
        }
        Ok(words)
    }

    /// The same as one line for a shell.
    pub fn command(
        self,
        alloc: Global,
        verb: Verb,
        change: Option<Change>,
    ) -> Result<String, AllocError> {
        let mut line = String::from_str(alloc, "reiserconv")?;
        for word in &self.words(alloc, verb, change)? {
            line.push_str(" ")?;
            line.push_str(quoted(alloc, word.as_str())?.as_str())?;
        }
        Ok(line)
    }
}

/// Whether a word stays that is of this option, or of none. What is told, and no part of a conversion, does not.
fn stays(option: Option<Choice>, verb: Verb, change: Option<Change>) -> bool {
    let Some(option) = option else {
        return true;
    };
    if option == Choice::Verbose || !option.is_of(verb) {
        return false;
    }
    match change {
        Some(Change::Size(_)) => option != Choice::Nodesize,
        Some(Change::Without(left_out)) => option != left_out,
        None => true,
    }
}
