// What the words of a command line ask for, as far as it is told to a person.
use host_edge::Task;
use volume_app::{Command, CommandLine, read_words};

/// A command that does something with a path.
#[derive(Clone, Copy, Debug, PartialEq, Eq)]
pub enum Verb {
    Inspect,
    List,
    Convert,
    Recover,
    Rollback,
    Trial,
}

impl Verb {
    /// The command of this name.
    pub fn named(word: &str) -> Option<Verb> {
        match word {
            "inspect" => Some(Verb::Inspect),
            "list" => Some(Verb::List),
            "convert" => Some(Verb::Convert),
            "recover" => Some(Verb::Recover),
            "rollback" => Some(Verb::Rollback),
            "trial" => Some(Verb::Trial),
            _ => None,
        }
    }

    /// The command that the first of these words is.
    pub fn first_of(words: &[String]) -> Option<Verb> {
        match words {
            [first, ..] => Verb::named(first.as_str()),
            [] => None,
        }
    }

    /// Its name.
    pub fn name(self) -> &'static str {
        match self {
            Verb::Inspect => "inspect",
            Verb::List => "list",
            Verb::Convert => "convert",
            Verb::Recover => "recover",
            Verb::Rollback => "rollback",
            Verb::Trial => "trial",
        }
    }

    /// What it does with the disk.
    pub fn task(self) -> Task {
        match self {
            Verb::Inspect => Task::Inspect,
            Verb::List => Task::List,
            Verb::Convert => Task::Convert,
            Verb::Recover => Task::Recover,
            Verb::Rollback => Task::Rollback,
            Verb::Trial => Task::Trial,
        }
    }
}

/// What is asked for: a command and its path. There is no command where the help or the version is asked for, or the words are wrong.
#[derive(Clone, Copy, Debug)]
pub struct Asked<'a> {
    pub verb: Option<Verb>,
    pub path: &'a str,
    /// Whether all is to be told, also where there is no terminal.
    pub verbose: bool,
}

impl<'a> Asked<'a> {
    /// By the words, without the program's name. Of words that are wrong each may be the one that asks to be told.
    pub fn new(words: &'a [String]) -> Asked<'a> {
        match read_words(words) {
            Some(CommandLine { command, verbose }) => Asked::of(command, verbose),
            None => Asked::nothing(words.iter().any(|word| word.as_str() == "--verbose")),
        }
    }

    fn of(command: Command<'a>, verbose: bool) -> Asked<'a> {
        match command {
            Command::Inspect(path, ..) => Asked::with(Verb::Inspect, path, verbose),
            Command::List(path) => Asked::with(Verb::List, path, verbose),
            Command::Convert(path, ..) => Asked::with(Verb::Convert, path, verbose),
            Command::Recover(path) => Asked::with(Verb::Recover, path, verbose),
            Command::Rollback(path) => Asked::with(Verb::Rollback, path, verbose),
            Command::Trial(_, path) => Asked::with(Verb::Trial, path, verbose),
            Command::Help | Command::Version => Asked::nothing(verbose),
        }
    }

    fn with(verb: Verb, path: &'a str, verbose: bool) -> Asked<'a> {
        Asked {
            verb: Some(verb),
            path,
            verbose,
        }
    }

    fn nothing(verbose: bool) -> Asked<'a> {
        Asked {
            verb: None,
            path: "",
            verbose,
        }
    }

    /// What is done with the disk.
    pub fn task(&self) -> Task {
        match self.verb {
            Some(verb) => verb.task(),
            None => Task::Inspect,
        }
    }

    /// Whether a trial is asked for.
    pub fn is_trial(&self) -> bool {
        self.verb == Some(Verb::Trial)
    }
}
