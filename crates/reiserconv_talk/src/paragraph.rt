use std::alloc::{AllocError, Global};

/// No line has more characters, but for one of a single word.
const WIDTH: usize = 78;

/// A text whose lines are broken between words.
#[derive(Drop)]
pub struct Paragraph<'p> {
    alloc: Global,
    text: String,
    column: usize,
    path: &'p str,
    /// Whether words are appended that stand alone on a line.
    is_alone: bool,
}

impl<'p> Paragraph<'p> {
    /// An empty text. The path is that of the run, as a shell reads it.
    pub fn new(alloc: Global, path: &'p str) -> Paragraph<'p> {
        Paragraph {
            alloc,
            text: String::new(alloc),
            column: 0,
            path,
            is_alone: false,
        }
    }

    /// Appends words. `{1}` in one stands for the first of the parts, and so on, and `{path}` for the path; `{1:is:are}` for `is` where the
    /// first part is 1, and else for `are`.
    ///
    /// What stands between quotes, as a command, stands on a line of its own and without them where a part in it has a backslash or a quote for the
    /// shell: between quotes these would mean something else.
    pub fn say<'a, 'b>(&mut self, words: &'a str, parts: &[&'b str]) -> Result<(), AllocError> {
        let mut quotation = Vec::new(self.alloc);
        for word in words.split(' ') {
            if quotation.is_empty() && !is_opening(word) {
                self.put(word, parts)?;
                continue;
            }
            quotation.push(word)?;
            if is_closing(word) {
                self.quote(&quotation, parts)?;
                quotation.clear();
            }
        }
        self.quote(&quotation, parts)
    }

    /// Appends the words of a quotation.
    fn quote<'a, 'b>(&mut self, words: &[&'a str], parts: &[&'b str]) -> Result<(), AllocError> {
        for word in words {
            if self.is_escaped(*word, parts) {
                return self.show(words, parts);
            }
        }
        for word in words {
            self.put(*word, parts)?;
        }
        Ok(())
    }

    /// Whether a part that a word has a place for is written for a shell.
    fn is_escaped<'a, 'b>(&self, word: &'a str, parts: &[&'b str]) -> bool {
        match hole(word) {
            Some((_, "path", _)) => is_for_a_shell(self.path),
            Some((_, place, _)) => is_for_a_shell(part(place, parts)),
            None => false,
        }
    }

    /// Shows a quotation on a line of its own, without its quotes, and without a bracket or a stop around it.
    fn show<'a, 'b>(&mut self, words: &[&'a str], parts: &[&'b str]) -> Result<(), AllocError> {
        self.end()?;
        self.text.push_str("   ")?;
        self.is_alone = true;
        for word in words {
            self.put(unquoted(*word), parts)?;
        }
        self.is_alone = false;
        self.text.push_str("\n")
    }

    /// Appends a word with a place for a part, or without one.
    fn put<'a, 'b>(&mut self, word: &'a str, parts: &[&'b str]) -> Result<(), AllocError> {
        match hole(word) {
            Some((front, "path", back)) => {
                let path = self.path;
                self.word(front, path, back)
            }
            Some((front, place, back)) => match place.split_once(':') {
                Some((number, forms)) => {
                    let is_one = part(number, parts) == "1";
                    self.word(front, form(forms, is_one), back)
                }
                None => self.word(front, part(place, parts), back),
            },
            None => self.word(word, "", ""),
        }
    }

    /// Appends a word of three parts, on a new line where it is too long for the last one; behind others that stand alone on a line, on that.
    fn word(&mut self, front: &str, middle: &str, back: &str) -> Result<(), AllocError> {
        if self.is_alone {
            self.text.push_str(" ")?;
            return self.join(front, middle, back);
        }
        let length = front
            .len()
            .saturating_add(middle.len())
            .saturating_add(back.len());
        if length == 0 {
            return Ok(());
        }
        if self.column > 0 {
            if self.column.saturating_add(length) < WIDTH {
                self.text.push_str(" ")?;
                self.column = self.column.saturating_add(1);
            } else {
                self.end()?;
            }
        }
        self.join(front, middle, back)?;
        self.column = self.column.saturating_add(length);
        Ok(())
    }

    /// Appends three parts of a word.
    fn join(&mut self, front: &str, middle: &str, back: &str) -> Result<(), AllocError> {
        self.text.push_str(front)?;
        self.text.push_str(middle)?;
        self.text.push_str(back)
    }

    /// Ends the line, if one is begun.
    pub fn end(&mut self) -> Result<(), AllocError> {
        if self.column > 0 {
            self.text.push_str("\n")?;
            self.column = 0;
        }
        Ok(())
    }

    /// The text.
    pub fn into_text(self) -> String {
        self.text
    }
}

/// The parts of a word with a place for another text: what stands before, the name of the place, and what stands behind.
fn hole(word: &str) -> Option<(&str, &str, &str)> {
    let (front, rest) = word.split_once('{')?;
    let (place, back) = rest.split_once('}')?;
    Some((front, place, back))
}

/// The part with this number, from 1 on; nothing where there is none.
fn part<'b>(place: &str, parts: &[&'b str]) -> &'b str {
    let Ok(number) = place.parse::<usize>() else {
        return "";
    };
    match number.checked_sub(1) {
        Some(index) => parts.get(index).copied().unwrap_or(""),
        None => "",
    }
}

/// Of two forms with a colon between them the one for a single thing, or the one for others.
fn form(forms: &str, is_one: bool) -> &str {
    match forms.split_once(':') {
        Some((one, _)) if is_one => one,
        Some((_, many)) => many,
        None => "",
    }
}

/// Whether a text has something in it that means itself to nobody but a shell.
fn is_for_a_shell(text: &str) -> bool {
    text.contains('\\') || text.contains('\'')
}

/// Whether a quotation begins with this word.
fn is_opening(word: &str) -> bool {
    word.starts_with('\'') || word.starts_with("('")
}

/// Whether a quotation ends with this word.
fn is_closing(word: &str) -> bool {
    unstopped(unopened(word)).ends_with('\'')
}

/// A word without what begins and ends a quotation.
fn unquoted(word: &str) -> &str {
    let word = unopened(word);
    unstopped(word).strip_suffix('\'').unwrap_or(word)
}

/// A word without what begins a quotation.
fn unopened(word: &str) -> &str {
    match word.strip_prefix("('") {
        Some(rest) => rest,
        None => word.strip_prefix('\'').unwrap_or(word),
    }
}

/// A word without what may stand behind a quotation.
fn unstopped(word: &str) -> &str {
    word.trim_end_matches(['.', ',', ':', ';', '?', ')'])
}
