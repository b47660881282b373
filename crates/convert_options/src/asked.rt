ghost use Rattle.std.specs.Prelude.{◌≡◌, ◌&&◌, not, map, string_bytes, IfSome};
ghost use Rattle.btr_node.specs.NodeSize.{IsNodeSize};
ghost use Rattle.convert_options.specs.Asked.{asked_by, options_of_convert, options_of_inspect, is_verbose, naming, options_beside};

use crate::Options;
use crate::given::Given;
use crate::read::first_setting;

/// The options before the path of a command.
#[derive(Drop, Debug, PartialEq)]
pub struct AskedOptions {
    /// The options of a conversion.
    pub options: Options,
    /// Whether `--verbose` is among them. It changes nothing of a conversion.
    pub verbose: bool,
}

/// Reads the options of `convert`: those of [`read_options`](crate::read_options), and `--verbose` at most once among them.
pub fn read_convert_options(words: &[String]) -> Option<AskedOptions>
    ensures read { result ≡ options_of_convert (map string_bytes words.now) }
    ensures size { IfSome result (λ a. IsNodeSize a.options.nodesize) }
{
    read_beside(words, Given::none())
}

/// Reads the options of `inspect`: those of `convert`, but for `--label`, `--copy-label` and `--uuid`, which change nothing of what a
/// conversion needs.
pub fn read_inspect_options(words: &[String]) -> Option<AskedOptions>
    ensures read { result ≡ options_of_inspect (map string_bytes words.now) }
    ensures size { IfSome result (λ a. IsNodeSize a.options.nodesize) }
{
    read_beside(words, naming())
}

/// The settings of the label and the identifier.
fn naming() -> Given
    ensures { result ≡ naming }
{
    let mut given = Given::none();
    given.label = true;
    given.uuid = true;
    given
}

/// Reads the options, none of which is of a kind that is given.
fn read_beside(words: &[String], given: Given) -> Option<AskedOptions>
    ensures read { result ≡ asked_by (λ ws. options_beside given ws) (map string_bytes words.now) }
    ensures size { IfSome result (λ a. IsNodeSize a.options.nodesize) }
{
    let mut given = given;
    let mut options = Options::plain();
    let mut verbose = false;
    let mut rest = words;
    while let [word, after @ ..] = rest {
        let text = word.as_str();
        if is_first_verbose(verbose, text) {
            verbose = true;
            rest = after;
        } else {
            let (setting, behind) = first_setting(text, after)?;
            if given.has(&setting) {
                return None;
            }
            given.add(&setting);
            setting.apply(&mut options);
            rest = behind;
        }
    }
    Some(AskedOptions { options, verbose })
}

/// Whether a word is the first that asks to be told more.
fn is_first_verbose(met: bool, word: &str) -> bool
    ensures { result ≡ (not met && is_verbose word.now) }
{
    !met && is_verbose(word)
}

/// Whether a word asks to be told more.
pub fn is_verbose(word: &str) -> bool
    ensures { result ≡ is_verbose word.now }
{
    word == "--verbose"
}
