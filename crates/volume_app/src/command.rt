ghost use Rattle.std.specs.Prelude.{◌≡◌, false, map, option_map, string_bytes, IfSome};
ghost use Rattle.volume_app.specs.Command.{alone, asks_help, begun_by, command, converting, inspecting, is_help, is_name, is_version, line, named, numbered, plain_line, plain_words, seen, seen_line, trying, with_path, IsInRange};

use program_words::{is_path, plain_number};
use unit_plan::convert_options::{
    AskedOptions, Options, is_verbose, read_convert_options, read_inspect_options,
};

/// The largest number of a sample.
const MOST_FILES: u64 = 4000;

/// What the words of a command line ask for.
#[derive(Drop, Debug)]
pub enum Command<'a> {
    /// To check the volume at a path, and print what is known of it, and what a conversion with these options would need. They name no
    /// label and no identifier.
    Inspect(&'a str, Options),
    /// To print a line for each path of the volume at a path.
    List(&'a str),
    /// To turn the ReiserFS volume at a path into a Btrfs volume, with these options.
    Convert(&'a str, Options),
    /// To finish what was interrupted on the volume at a path.
    Recover(&'a str),
    /// To turn the Btrfs volume at a path back into the volume that it was made from.
    Rollback(&'a str),
    /// To make the sample of a number, of at most 4000, on the device at a path, convert it and roll it back.
    Trial(u32, &'a str),
    /// To print how the program is called.
    Help,
    /// To print the program's version.
    Version,
}

/// The words of a command line as they were read.
#[derive(Drop, Debug)]
pub struct CommandLine<'a> {
    /// What they ask for.
    pub command: Command<'a>,
    /// Whether `--verbose` is among the options. It changes nothing of what is done and printed: it asks to be told, behind the line on
    /// the error sink, what a person at a terminal is told.
    pub verbose: bool,
}

/// Reads the words, without the program's name. None where they are no command.
///
/// | Words | Command |
/// |---|---|
/// | `inspect [OPTIONS] PATH` | [`Command::Inspect`], with the options of `convert` but for `--label`, `--copy-label` and `--uuid` |
/// | `list PATH`, `recover PATH`, `rollback PATH` | [`Command::List`], [`Command::Recover`], [`Command::Rollback`] |
/// | `convert [OPTIONS] PATH` | [`Command::Convert`] |
/// | `trial N PATH` | [`Command::Trial`], with a number of at most 4000 without leading zeros |
/// | `--help` or `-h`, alone or as the only word behind the name of one of these | [`Command::Help`] |
/// | `--version` or `-V`, alone | [`Command::Version`] |
///
/// A path is not empty and does not begin with `-`. `--verbose` may stand once among the options, where there are no others right behind
/// the command's name.
pub fn read_words(words: &[String]) -> Option<CommandLine<'_>>
    ensures read { option_map seen_line result ≡ line (map string_bytes words.now) }
    ensures range { IfSome result (λ l. IsInRange l.command) }
{
    let [name, rest @ ..] = words else {
        return None;
    };
    if rest.is_empty() {
        return Some(quiet(alone(name.as_str())?));
    }
    if asks_help(name.as_str(), rest) {
        return Some(quiet(Command::Help));
    }
    begun_by(name.as_str(), rest)
}

/// What the words ask for, without more.
pub fn read_command(words: &[String]) -> Option<Command<'_>>
    ensures read { option_map seen result ≡ command (map string_bytes words.now) }
    ensures range { IfSome result IsInRange }
{
    match read_words(words) {
        Some(CommandLine { command, .. }) => Some(command),
        None => None,
    }
}

/// A command line without `--verbose`.
fn quiet(command: Command<'_>) -> CommandLine<'_>
    ensures { result ≡ record { command = command.entry; verbose = false } }
{
    CommandLine {
        command,
        verbose: false,
    }
}

fn alone(word: &str) -> Option<Command<'static>>
    ensures read { option_map seen result ≡ alone word.now }
    ensures range { IfSome result IsInRange }
{
    if is_help(word) {
        return Some(Command::Help);
    }
    if is_version(word) {
        return Some(Command::Version);
    }
    None
}

/// Whether the words behind a command's name are one that asks for the help.
fn asks_help(name: &str, words: &[String]) -> bool
    ensures { result ≡ asks_help name.now (map string_bytes words.now) }
{
    let [word] = words else {
        return false;
    };
    is_help(word.as_str()) && is_name(name)
}

fn is_help(word: &str) -> bool
    ensures { result ≡ is_help word.now }
{
    word == "--help" || word == "-h"
}

fn is_version(word: &str) -> bool
    ensures { result ≡ is_version word.now }
{
    word == "--version" || word == "-V"
}

/// Whether a word is the name of a command that has a path.
fn is_name(name: &str) -> bool
    ensures { result ≡ is_name name.now }
{
    matches!(
        name,
        "inspect" | "list" | "convert" | "recover" | "rollback" | "trial"
    )
}

/// The command line that begins with a word, and has these words behind it.
fn begun_by<'a>(name: &str, words: &'a [String]) -> Option<CommandLine<'a>>
    ensures read { option_map seen_line result ≡ begun_by name.now (map string_bytes words.now) }
    ensures range { IfSome result (λ l. IsInRange l.command) }
{
    if name != "convert" && name != "inspect" {
        return plain_line(name, words);
    }
    let [options @ .., path] = words else {
        return None;
    };
    if name == "convert" {
        return converting(options, path.as_str());
    }
    inspecting(options, path.as_str())
}

fn converting<'a>(words: &[String], path: &'a str) -> Option<CommandLine<'a>>
    ensures read { option_map seen_line result ≡ converting (map string_bytes words.now) path.now }
    ensures range { IfSome result (λ l. IsInRange l.command) }
{
    if !is_path(path) {
        return None;
    }
    let AskedOptions { options, verbose } = read_convert_options(words)?;
    Some(CommandLine {
        command: Command::Convert(path, options),
        verbose,
    })
}

fn inspecting<'a>(words: &[String], path: &'a str) -> Option<CommandLine<'a>>
    ensures read { option_map seen_line result ≡ inspecting (map string_bytes words.now) path.now }
    ensures range { IfSome result (λ l. IsInRange l.command) }
{
    if !is_path(path) {
        return None;
    }
    let AskedOptions { options, verbose } = read_inspect_options(words)?;
    Some(CommandLine {
        command: Command::Inspect(path, options),
        verbose,
    })
}

/// The command line of a command that has no option but `--verbose`.
fn plain_line<'a>(name: &str, words: &'a [String]) -> Option<CommandLine<'a>>
    ensures read { option_map seen_line result ≡ plain_line name.now (map string_bytes words.now) }
    ensures range { IfSome result (λ l. IsInRange l.command) }
{
    let [word, rest @ ..] = words else {
        return None;
    };
    let verbose = is_verbose(word.as_str());
    let others = if verbose { rest } else { words };
    let command = plain_words(name, others)?;
    Some(CommandLine { command, verbose })
}

fn plain_words<'a>(name: &str, words: &'a [String]) -> Option<Command<'a>>
    ensures read { option_map seen result ≡ plain_words name.now (map string_bytes words.now) }
    ensures range { IfSome result IsInRange }
{
    if name == "trial" {
        return trying(words);
    }
    with_path(name, words)
}

fn with_path<'a>(name: &str, words: &'a [String]) -> Option<Command<'a>>
    ensures read { option_map seen result ≡ with_path name.now (map string_bytes words.now) }
    ensures range { IfSome result IsInRange }
{
    let [path] = words else {
        return None;
    };
    if !is_path(path.as_str()) {
        return None;
    }
    named(name, path.as_str())
}

fn trying(words: &[String]) -> Option<Command<'_>>
    ensures read { option_map seen result ≡ trying (map string_bytes words.now) }
    ensures range { IfSome result IsInRange }
{
    let [number, rest @ ..] = words else {
        return None;
    };
    numbered(number.as_str(), rest)
}

fn numbered<'a>(number: &str, words: &'a [String]) -> Option<Command<'a>>
    ensures read { option_map seen result ≡ numbered number.now (map string_bytes words.now) }
    ensures range { IfSome result IsInRange }
{
    let [path] = words else {
        return None;
    };
    if !is_path(path.as_str()) {
        return None;
    }
    let number = plain_number(number, MOST_FILES)?;
    Some(Command::Trial(number as u32, path.as_str()))
}

fn named<'a>(name: &str, path: &'a str) -> Option<Command<'a>>
    ensures read { option_map seen result ≡ named name.now path.now }
    ensures range { IfSome result IsInRange }
{
    match name {
        "list" => Some(Command::List(path)),
        "recover" => Some(Command::Recover(path)),
        "rollback" => Some(Command::Rollback(path)),
        _ => None,
    }
}
