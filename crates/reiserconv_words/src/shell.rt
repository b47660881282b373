use std::alloc::{AllocError, Global};

/// A word as a shell reads it, so that it can be copied from a terminal, and no byte of it does anything to the terminal: what a shell takes for
/// something else has a backslash before it, and a control character stands as its number.
pub fn quoted(alloc: Global, word: &str) -> Result<String, AllocError> {
    let mut text = String::new(alloc);
    if word.is_empty() {
        text.push_str("''")?;
    }
    for c in word.chars() {
        if c.is_control() {
            let number = u32::from(c);
            let escape = format!(in alloc; "$'\\u{:04x}'", number)?;
            text.push_str(escape.as_str())?;
        } else {
            if !is_plain(c) {
                text.push_str("\\")?;
            }
            text.push(c)?;
        }
    }
    Ok(text)
}

/// Whether a character means itself to a shell, wherever it stands in a word.
fn is_plain(c: char) -> bool {
    c.is_ascii_alphanumeric()
        || !c.is_ascii()
        || matches!(c, '/' | '.' | '_' | '-' | '+' | ',' | ':' | '=' | '@' | '%')
}
