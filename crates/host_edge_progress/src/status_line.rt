use std::alloc::{AllocError, Global};
use std::cell::Cell;
use std::env;
use std::env::Env;
use std::io::{IsTerminal, Stderr, Write};

/// Back to the first column, and all behind it wiped.
const WIPED: &[u8] = b"\r\x1b[K";

/// Back to the first column. What would leave the last column stays there from now on, so that a line is never broken, however narrow the terminal is.
const BEGUN: &[u8] = b"\r\x1b[?7l";

/// All behind it wiped, and lines are broken again as ever.
const ENDED: &[u8] = b"\x1b[K\x1b[?7h";

/// The columns of a terminal that does not tell how many it has.
const USUAL_COLUMNS: usize = 80;

/// A line that is written over stands for so many milliseconds at least.
const STANDS: u64 = 250;

/// Lines that stand one below the other come no faster than one in so many milliseconds.
const PLAIN_STANDS: u64 = 10_000;

/// A terminal, and what it is able to do.
#[derive(Clone, Copy)]
struct Terminal {
    stream: Stderr,
    /// Whether it knows no escape sequences.
    is_dumb: bool,
    columns: usize,
}

impl Terminal {
    /// What the environment tells of it: its kind by `TERM`, and by `COLUMNS`, where that is there, its width.
    fn new<R: Env + AllocGlobal>(stream: Stderr, env: &R) -> Terminal {
        Terminal {
            stream,
            is_dumb: is_dumb(env),
            columns: columns(env),
        }
    }
}

/// Whether the environment names a terminal without escape sequences, or none.
fn is_dumb<R: Env + AllocGlobal>(env: &R) -> bool {
    match env::var(env, "TERM") {
        Ok(kind) => kind.as_str().is_empty() || kind.as_str() == "dumb",
        Err(_) => true,
    }
}

/// How many columns the environment tells of.
fn columns<R: Env + AllocGlobal>(env: &R) -> usize {
    match env::var(env, "COLUMNS") {
        Ok(text) => columns_of(text.as_str()),
        Err(_) => USUAL_COLUMNS,
    }
}

/// The number of columns that a text tells, 80 where it is none above zero.
pub fn columns_of(text: &str) -> usize {
    match text.parse::<usize>() {
        Ok(count) if count > 0 => count,
        _ => USUAL_COLUMNS,
    }
}

/// The line of a terminal that tells how far a command is. Only standard error that is a terminal has one. It is written over, or where the terminal is
/// not able to do that, it is a new line each time, and there are few of them.
///
/// What else is written to a terminal calls [`StatusLine::wipe`] before.
#[derive(Drop)]
pub struct StatusLine {
    terminal: Option<Terminal>,
    is_shown: Cell<bool>,
}

impl StatusLine {
    /// The line of standard error, if that is a terminal. The environment tells what it is able to do.
    pub fn new<R: Env + AllocGlobal>(stream: Stderr, env: &R) -> StatusLine {
        StatusLine {
            terminal: if stream.is_terminal() {
                Some(Terminal::new(stream, env))
            } else {
                None
            },
            is_shown: Cell::new(false),
        }
    }

    /// No line, whatever standard error is.
    pub fn none() -> StatusLine {
        StatusLine {
            terminal: None,
            is_shown: Cell::new(false),
        }
    }

    /// Whether there is a terminal to show it.
    pub fn is_seen(&self) -> bool {
        self.terminal.is_some()
    }

    /// For how many milliseconds a line stands at least.
    pub fn stands(&self) -> u64 {
        match self.terminal {
            Some(terminal) if terminal.is_dumb => PLAIN_STANDS,
            _ => STANDS,
        }
    }

    /// Shows a text of ASCII, cut to the width of the terminal. A failure changes nothing else, and without memory it shows nothing.
    pub fn show(&self, alloc: Global, text: &str) {
        if let Some(mut terminal) = self.terminal {
            if let Ok(bytes) = shown(alloc, text.as_bytes(), terminal.columns, terminal.is_dumb) {
                self.is_shown.set(!terminal.is_dumb);
                let _ = terminal.stream.write_all(bytes.as_slice());
            }
        }
    }

    /// Wipes what is shown, so that another text begins at the first column.
    pub fn wipe(&self) {
        if self.is_shown.replace(false) {
            if let Some(mut terminal) = self.terminal {
                let _ = terminal.stream.write_all(WIPED);
            }
        }
    }
}

/// The bytes that show a text on so many columns, as a line of its own on a terminal without escape sequences. The error is that no
/// memory is left.
pub fn shown(
    alloc: Global,
    text: &[u8],
    columns: usize,
    is_dumb: bool,
) -> Result<Vec<u8>, AllocError> {
    let width = text.len().min(columns.saturating_sub(1));
    let mut bytes = Vec::new(alloc);
    if is_dumb {
        bytes.extend_from_slice(&text[..width])?;
        bytes.extend_from_slice(b"\n")?;
    } else {
        bytes.extend_from_slice(BEGUN)?;
        bytes.extend_from_slice(&text[..width])?;
        bytes.extend_from_slice(ENDED)?;
    }
    Ok(bytes)
}
