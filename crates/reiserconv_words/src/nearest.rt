use std::alloc::{AllocError, Global};
use strsim::damerau_levenshtein;

/// The most letters that may be wrong.
const WRONG_LETTERS: usize = 2;

/// Of some names the one that is most like a word, where a letter or two are wrong, missing, too many, or in each other's place.
pub fn nearest(
    alloc: Global,
    word: &str,
    names: &[&'static str],
) -> Result<Option<&'static str>, AllocError> {
    // the distance of a long word takes a table of its length
    if word.len() > 20 {
        return Ok(None);
    }
    let mut best = None;
    let mut least = WRONG_LETTERS + 1;
    for name in names {
        let wrong = damerau_levenshtein(alloc, word, *name)?;
        if wrong < least && wrong < name.len().saturating_sub(1) {
            least = wrong;
            best = Some(*name);
        }
    }
    Ok(best)
}
