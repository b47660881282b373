ghost use Rattle.std.specs.Prelude.{◌≡◌};
ghost use Rattle.program_words.specs.Words.{is_path, number_of, plain_number, at_most, begins_with_plus, has_leading_zero};

/// Whether a word may be a path: it is not empty and does not begin with `-`.
pub fn is_path(word: &str) -> bool
    ensures { result ≡ is_path word.now }
{
    match word.as_bytes() {
        [first, ..] => *first != b'-',
        [] => false,
    }
}

/// The number that a word writes in decimal digits alone, where it is at most `most`.
pub fn number_of(word: &str, most: u64) -> Option<u64>
    ensures { result ≡ number_of most word.now }
{
    if begins_with_plus(word) {
        return None;
    }
    match word.parse::<u64>() {
        Ok(number) => at_most(number, most),
        Err(_) => None,
    }
}

/// The number that a word writes in decimal digits alone and without leading zeros, where it is at most `most`.
pub fn plain_number(word: &str, most: u64) -> Option<u64>
    ensures { result ≡ plain_number most word.now }
{
    if has_leading_zero(word) {
        return None;
    }
    number_of(word, most)
}

fn at_most(number: u64, most: u64) -> Option<u64>
    ensures { result ≡ at_most most number }
{
    if number <= most { Some(number) } else { None }
}

/// Whether a plus stands before the digits, as `parse` lets it.
fn begins_with_plus(word: &str) -> bool
    ensures { result ≡ begins_with_plus word.now }
{
    match word.as_bytes() {
        [first, ..] => *first == b'+',
        [] => false,
    }
}

/// Whether a zero stands before more digits.
fn has_leading_zero(word: &str) -> bool
    ensures { result ≡ has_leading_zero word.now }
{
    match word.as_bytes() {
        [first, _, ..] => *first == b'0',
        _ => false,
    }
}
