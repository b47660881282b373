ghost use Rattle.std.specs.Prelude.{◌≡◌, map, option_map, string_bytes};
ghost use Rattle.reiser_make_app.specs.Order.{order, three_words, order_of, seen};

use crate::Order;
use program_words::{is_path, number_of};

/// The largest number of a sample.
const MOST_NAMES: u64 = 4000;

/// The most blocks of a volume, 2 TiB.
const MOST_BLOCKS: u64 = 1 << 29;

/// Reads the words, without the program's name: a number of at most 4000 and a number of blocks of at most 2^29, both in
/// decimal digits, and a path that is not empty and does not begin with `-`; before them `--old` may stand. Anything else
/// orders nothing.
pub fn read_words(words: &[String]) -> Option<Order<'_>>
    ensures { option_map seen result ≡ order (map string_bytes words.now) }
{
    match words {
        [] => None,
        [first, rest @ ..] => {
            if first.as_str() == "--old" {
                three_words(true, rest)
            } else {
                three_words(false, words)
            }
        }
    }
}

fn three_words(old: bool, words: &[String]) -> Option<Order<'_>>
    ensures { option_map seen result ≡ three_words old (map string_bytes words.now) }
{
    match words {
        [number, blocks, path] => order_of(old, number.as_str(), blocks.as_str(), path.as_str()),
        _ => None,
    }
}

fn order_of<'a>(old: bool, number: &str, blocks: &str, path: &'a str) -> Option<Order<'a>>
    ensures { option_map seen result ≡ order_of old number.now blocks.now path.now }
{
    if !is_path(path) {
        return None;
    }
    match number_of(number, MOST_NAMES) {
        None => None,
        Some(number) => match number_of(blocks, MOST_BLOCKS) {
            None => None,
            Some(blocks) => Some(Order {
                number: number as u32,
                blocks,
                old,
                path,
            }),
        },
    }
}
