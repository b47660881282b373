ghost use Rattle.std.specs.Prelude.{◌≡◌, ◌<◌, ◌≤◌, ◌+◌, ◌*◌, ◌↔◌, length, Some, IsSome, IfSome, IsTrue, is_some, slice_get};
ghost use Rattle.reiser_items.specs.Entries.{AreEntries, entry_value, entry_at, entries, are_entries, location, area_end, name_area, until_zero};

use reiser_node::reiserfs_format::size::DEH_SIZE;
use reiser_node::{u16_at, u32_at};
use std::marker::Model;

/// The bit of an entry's state that says whether it is visible, DEH_Visible of the kernel's reiserfs.h.
const VISIBLE: u16 = 4;

/// An entry of a directory.
#[derive(Clone, Copy, Debug)]
pub struct Entry<'a> {
    /// Where the entry stands in the order of the directory: a hash of the name, with a number in its low 7 bits that
    /// tells equal hashes apart; 1 for `.` and 2 for `..`.
    pub offset: u32,
    /// The first number in the keys of the object that the entry names (`dir_id`).
    pub dir: u32,
    /// The number of that object.
    pub object: u32,
    /// Whether the entry counts. One that does not is passed over when names are listed.
    pub visible: bool,
    /// The name, without the zeros that fill its place up.
    pub name: &'a [u8],
}

/// The entries of a directory's part: the body of a directory item.
#[derive(Debug, Drop)]
pub struct Entries<'a> {
    body: &'a [u8],
    count: u16,
}

impl<'a> Model for Entries<'a> {
    ghost use Rattle.std.specs.Prelude.{List};
    ghost use Rattle.reiser_items.specs.Entries.{EntryValue, AreEntries, entries};

    ghost Value = { List EntryValue };

    ghost view = { λ v. entries v.count v.body.now };

    ghost invariant = { λ v. AreEntries v.count v.body.now };
}

impl<'a> Entries<'a> {
    /// The entries of a body, with the count of its item's head; None exactly where it is off the grammar of entries.
    ///
    /// There is at least one entry. The heads of 16 bytes stand first. The place of the first name ends at the end of
    /// the body, each later one where the one before it begins, and all lie behind the heads. The names themselves are
    /// not looked at.
    pub fn read(body: &'a [u8], count: u16) -> Option<Entries<'a>>
        ensures grammar { IsSome result ↔ AreEntries count body.now }
        ensures value { IfSome result (λ read. read ≡ entries count body.now) }
        ensures test { is_some result ≡ are_entries count body.now }
    {
        if are_entries(body, count) {
            Some(Entries { body, count })
        } else {
            None
        }
    }

    /// How many entries there are: at least one.
    #[tactic(auto, using(crate::proofs::Lists::entries_length))]
    pub fn len(&self) -> usize
        ensures { result ≡ length self.now }
    {
        self.count as usize
    }

    /// Entry `i`, counted from 0 in the order of the heads.
    pub fn get(&self, i: usize) -> Entry<'a>
        requires { i < length self.now }
        ensures { slice_get self.now i ≡ Some (entry_value result) }
    {
        entry_at(self.body, i)
    }
}

/// Whether a body is on the grammar of so many entries.
fn are_entries(body: &[u8], count: u16) -> bool
    ensures { IsTrue result ↔ AreEntries count body.now }
{
    let count = count as usize;
    if count == 0 || DEH_SIZE * count > body.len() {
        return false;
    }
    let mut end = body.len();
    for i in 0..count {
        let location = u16_at(body, DEH_SIZE * i + 12) as usize;
        if location < DEH_SIZE * count || location > end {
            return false;
        }
        end = location;
    }
    true
}

/// Entry `i` of a body.
fn entry_at(body: &[u8], i: usize) -> Entry<'_>
    requires head { DEH_SIZE * i + DEH_SIZE ≤ length body.now }
    requires area { location body.now i ≤ area_end body.now i }
    requires within { area_end body.now i ≤ length body.now }
    ensures { entry_value result ≡ entry_at body.now i }
{
    let at = DEH_SIZE * i;
    Entry {
        offset: u32_at(body, at),
        dir: u32_at(body, at + 4),
        object: u32_at(body, at + 8),
        visible: u16_at(body, at + 14) / VISIBLE % 2 == 1,
        name: until_zero(name_area(body, i)),
    }
}

/// The bytes in which the name of entry `i` lies.
fn name_area(body: &[u8], i: usize) -> &[u8]
    requires head { DEH_SIZE * i + DEH_SIZE ≤ length body.now }
    requires area { location body.now i ≤ area_end body.now i }
    requires within { area_end body.now i ≤ length body.now }
    ensures { result.now ≡ name_area body.now i }
{
    let end = if i == 0 {
        body.len()
    } else {
        u16_at(body, DEH_SIZE * (i - 1) + 12) as usize
    };
    &body[u16_at(body, DEH_SIZE * i + 12) as usize..end]
}

/// The bytes before the first zero, or all of them.
fn until_zero(bytes: &[u8]) -> &[u8]
    ensures { result.now ≡ until_zero bytes.now }
{
    let mut end = 0;
    while end < bytes.len() && bytes[end] != 0 {
        end += 1;
    }
    &bytes[..end]
}
