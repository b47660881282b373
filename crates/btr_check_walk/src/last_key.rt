// The order of the keys of a tree.
ghost use Rattle.std.specs.Prelude.{◌≡◌};
ghost use Rattle.btr_check_rules.specs.btr_reader.btr_reader_walk.Tree.{is_above};

use btr_check_rules::btr_reader::btr_reader_walk::Key;

/// Whether a key is above the last one, if there is one.
pub fn is_above(last: &Option<Key>, key: &Key) -> bool
    ensures { result ≡ is_above last.now key.now }
{
    match last {
        Some(last) => last.is_before(key),
        None => true,
    }
}
