ghost use Rattle.std.specs.Prelude.{◌≡◌};
ghost use Rattle.reiser_walk.specs.Bodies.{fits_kind, is_save_link, is_body};
ghost use Rattle.reiser_walk.specs.Rules.{is_above};

use reiser_bitmap::reiserfs_format::key::MAX_KEY_OBJECTID;
use reiser_items::{ItemHead, ItemKind, Pointers, StatData, key_order};

/// The greatest offset of an item.
const MAX_OFFSET: u64 = 1 << 45;

/// Whether an item is of the list of files to be removed or cut.
pub fn is_save_link(head: &ItemHead) -> bool
    ensures { result ≡ is_save_link head.now }
{
    head.dir == MAX_KEY_OBJECTID
}

/// Whether the offset and the body fit the kind.
fn fits_kind(head: &ItemHead, body: &[u8]) -> bool
    ensures { result ≡ fits_kind head.now.kind head.now body.now }
{
    match head.kind {
        ItemKind::Stat => head.offset == 0 && StatData::read(head.old, body).is_some(),
        ItemKind::Indirect => head.offset % 4096 == 1 && Pointers::read(body).is_some(),
        ItemKind::Direct => head.offset >= 1,
        ItemKind::Directory => true,
    }
}

/// Whether the offset and the body of an item fit its kind. Of save links nothing is asked.
pub fn is_body(head: &ItemHead, body: &[u8]) -> bool
    ensures { result ≡ is_body head.now body.now }
{
    is_save_link(head) || (fits_kind(head, body) && head.offset <= MAX_OFFSET)
}

/// Whether an item is above the last one.
pub fn is_above(last: &Option<ItemHead>, head: &ItemHead) -> bool
    ensures { result ≡ is_above last.now head.now }
{
    match last {
        Some(last) => key_order(last, head).is_lt(),
        None => true,
    }
}
