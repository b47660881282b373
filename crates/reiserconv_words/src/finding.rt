use crate::shell::quoted;
use std::alloc::{AllocError, Global};

/// What is wrong with the words of a command line, as a sentence with places for two of the words.
#[derive(Drop)]
pub struct Finding {
    pub sentence: &'static str,
    /// The words for `{1}` and `{2}`, as a shell reads them.
    pub first: String,
    pub second: String,
}

impl Finding {
    /// A sentence, with these words for `{1}` and `{2}`.
    pub fn new(
        alloc: Global,
        sentence: &'static str,
        first: &str,
        second: &str,
    ) -> Result<Finding, AllocError> {
        Ok(Finding {
            sentence,
            first: quoted(alloc, first)?,
            second: quoted(alloc, second)?,
        })
    }
}
