ghost use Rattle.std.specs.Prelude.{◌≡◌, Some};
ghost use Rattle.std.specs.Option.{option_map};
ghost use Rattle.btr_reader_walk.specs.btr_keys.DirEntry.{dir_entry_value};
ghost use Rattle.btr_reader_names.specs.Links.{index_entry, only_one};

use btr_reader_walk::{DirEntry, DirItems};

/// The entry that is the whole body of a directory index; None where that is off its grammar, or has more than one.
pub fn index_entry<'a>(body: &'a [u8]) -> Option<DirEntry<'a>>
    ensures { option_map dir_entry_value result ≡ index_entry body.now }
{
    match DirItems::read(body) {
        Some(items) => only_one(&items),
        None => None,
    }
}

fn only_one<'a>(items: &DirItems<'a>) -> Option<DirEntry<'a>>
    ensures { option_map dir_entry_value result ≡ only_one (Some items.now) }
{
    if items.len() != 1 {
        return None;
    }
    Some(items.get(0))
}
