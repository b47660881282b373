ghost use Rattle.std.specs.Prelude.{◌≡◌, ◌<◌, ◌≤◌, ◌+◌, ◌*◌, ◌++◌, ◌∷◌, [], List, length, replicate, codes};
ghost use Rattle.reiser_items.specs.Entries.{EntryValue};
ghost use Rattle.reiser_make.specs.Directory.{entries_bytes, root_entries, directory_entries, entries_so_far, entry, entry_head, file_entry, AreShortNames};
ghost use Rattle.reiser_make.specs.Shape.{directory_count, names_in};

use crate::name::{directory_name, entry_offset, file_name};
use crate::node::clear;
use crate::object::{ObjectId, directory_count, named_by, names_in};
use reiser_items::reiserfs_format::size::DEH_SIZE;
use reiser_items::{Field, put_fields};

/// The bytes that each name takes: those of a sample have at most eight.
const ROOM: usize = 8;

/// The state of a visible entry.
const VISIBLE: u16 = 4;

/// Writes the entries of the root of a sample of so many names.
pub fn put_root(number: u32, into: &mut [u8])
    requires number { number ≤ 4000 }
    requires room { length into.old ≡ 24 * (2 + directory_count number) }
    ensures { into.new ≡ entries_bytes (root_entries number) }
{
    put_dots(ObjectId::root(), ObjectId::above_root(), into);
    for k in 0..directory_count(number) {
        let name = directory_name(k);
        put_entry(
            into,
            2 + k as usize,
            entry_offset(&name),
            ObjectId::directory(k),
            &name,
        );
    }
}

/// Writes the entries of directory `k` of a sample of so many names.
pub fn put_directory(number: u32, k: u32, into: &mut [u8])
    requires number { number ≤ 4000 }
    requires directory { k < directory_count number }
    requires room { length into.old ≡ 24 * (2 + names_in number k) }
    ensures { into.new ≡ entries_bytes (directory_entries number k) }
{
    put_dots(ObjectId::directory(k), ObjectId::root(), into);
    for i in 0..names_in(number, k) {
        put_name(number, 100 * k + i, 2 + i as usize, into);
    }
}

/// Writes name `i` as entry `e` of its directory.
fn put_name(number: u32, i: u32, e: usize, into: &mut [u8])
    requires number { number ≤ 4000 }
    requires name { i < 4000 }
    requires room { 24 * e + 24 ≤ length into.old }
    requires small { length into.old ≤ 4048 }
    ensures { (entries : List EntryValue) → length entries ≡ e → AreShortNames entries → into.old ≡ entries_so_far (length into.old) entries
        → into.new ≡ entries_so_far (length into.old) (entries ++ file_entry number i ∷ []) }
{
    let name = file_name(i);
    put_entry(
        into,
        e,
        entry_offset(&name),
        ObjectId::file(number, named_by(i)),
        &name,
    );
}

/// Writes `.` and `..`, and zeros behind them.
fn put_dots(this: ObjectId, above: ObjectId, into: &mut [u8])
    requires room { 48 ≤ length into.old }
    requires small { length into.old ≤ 4048 }
    ensures { into.new ≡ entries_so_far (length into.old) (entry 1 this (codes ".") ∷ entry 2 above (codes "..") ∷ []) }
{
    clear(into);
    put_entry(into, 0, 1, this, b".");
    put_entry(into, 1, 2, above, b"..");
}

/// Writes an entry behind the `e` entries of a body in which each takes 24 bytes, and zeros stand between heads and names.
fn put_entry(into: &mut [u8], e: usize, offset: u32, id: ObjectId, name: &[u8])
    requires some { 1 ≤ length name.now }
    requires short { length name.now ≤ 8 }
    requires room { 24 * e + 24 ≤ length into.old }
    requires small { length into.old ≤ 4048 }
    ensures { (entries : List EntryValue) → length entries ≡ e → AreShortNames entries → into.old ≡ entries_so_far (length into.old) entries
        → into.new ≡ entries_so_far (length into.old) (entries ++ entry offset id name.now ∷ []) }
{
    let begin = into.len() - ROOM * (e + 1);
    into[begin..begin + name.len()].copy_from_slice(name);
    put_head(
        &mut into[DEH_SIZE * e..DEH_SIZE * e + DEH_SIZE],
        offset,
        id,
        begin as u16,
    );
}

/// Writes the head of an entry whose name begins at this byte.
fn put_head(into: &mut [u8], offset: u32, id: ObjectId, begin: u16)
    requires { length into.old ≡ 16 }
    ensures { into.new ≡ entry_head offset id.dir id.object begin }
{
    put_fields(
        into,
        &[
            Field::U32(offset),
            Field::U32(id.dir),
            Field::U32(id.object),
            Field::U16(begin),
            Field::U16(VISIBLE),
        ],
    );
}
