ghost use Rattle.std.specs.Prelude.{◌≡◌, ◌<◌, ◌≤◌, ◌+◌, ◌*◌, ◌^◌, true, false, length, slice_index_or};
ghost use Rattle.reiser_make.specs.Content.{IsSmallFile};
ghost use Rattle.reiser_make.specs.Items.{body_bytes, stat_bytes, pointers_bytes, pointers_of_content, rest_of_content, IsBodyOf, FitsOld, HasPointers, HasRest};
ghost use Rattle.reiser_make.specs.Shape.{pointer, file_byte, sample_bytes, stored_before};
ghost use Rattle.reiser_items.specs.Stat.{stat_length};
ghost use Rattle.reiser_make.specs.declared.sample_entry.SampleEntry.TheVariants as contents;

use crate::directory::{put_directory, put_root};
use crate::name::file_name;
use crate::place::place;
use crate::sample::Sample;
use crate::sample_entry::SampleEntry;
use crate::sample_item::{Body, SampleItem};
use reiser_items::{Block, Field, StatData, put_fields, put_u32};

impl Sample {
    /// Writes the body of an item into a slice of its length.
    #[tactic(auto, unfolding(crate::specs::Items::body_bytes))]
    pub fn put_body(&self, item: &SampleItem, into: &mut [u8])
        requires body { IsBodyOf self.now item.now.head item.now.body }
        requires room { length into.old ≡ item.now.head.length }
        ensures { into.new ≡ body_bytes self.now item.now.head.old item.now.body }
    {
        match item.body {
            Body::Attributes(stat) => put_stat(item.head.old, &stat, into),
            Body::Root => put_root(self.number(), into),
            Body::Names(k) => put_directory(self.number(), k, into),
            Body::Pointers(i) => self.put_pointers(i, into),
            Body::Bytes(i) => self.put_rest(i, into),
            Body::Target(i) => into.copy_from_slice(&file_name(i)),
        }
    }

    /// Writes the pointers to the whole blocks of the file of name `i`.
    fn put_pointers(&self, i: u32, into: &mut [u8])
        requires name { i < length self.now.names }
        requires room { HasPointers (length into.old) (slice_index_or self.now.names i contents.Name) }
        ensures { into.new ≡ pointers_of_content self.now i (slice_index_or self.now.names i contents.Name) }
    {
        match self.content(i) {
            SampleEntry::File { whole, sparse, .. } => {
                put_file_pointers(self.first(i), sparse, whole, into)
            }
            SampleEntry::Name => {}
            SampleEntry::Symlink => {}
        }
    }

    /// Writes the bytes behind the whole blocks of the file of name `i`.
    fn put_rest(&self, i: u32, into: &mut [u8])
        requires name { i < length self.now.names }
        requires room { HasRest (length into.old) (slice_index_or self.now.names i contents.Name) }
        ensures { into.new ≡ rest_of_content i (slice_index_or self.now.names i contents.Name) }
    {
        match self.content(i) {
            SampleEntry::File { whole, sparse, .. } => {
                put_bytes(i, sparse, 4096 * whole as u64, into)
            }
            SampleEntry::Name => {}
            SampleEntry::Symlink => {}
        }
    }
}

/// Writes the pointers of so many whole blocks of a file whose stored blocks begin at place `first`.
fn put_file_pointers(first: u32, sparse: bool, whole: u16, into: &mut [u8])
    requires first { first ≤ 80000 }
    requires whole { whole ≤ 20 }
    requires room { length into.old ≡ 4 * whole }
    ensures { into.new ≡ pointers_bytes first sparse whole }
{
    for k in 0..whole {
        put_u32(into, 4 * k as usize, pointer(first, sparse, k));
    }
}

/// The block that holds file block `k` of a file whose stored blocks begin at place `first`; 0 for a hole.
fn pointer(first: u32, sparse: bool, k: u16) -> u32
    requires first { first ≤ 80000 }
    requires block { k < 20 }
    ensures { result ≡ pointer first sparse k }
{
    if !sparse {
        place(first + k as u32)
    } else if k % 2 == 0 {
        place(first + k as u32 / 2)
    } else {
        0
    }
}

/// Writes 4096 bytes of the file of name `i`, from byte `from` on, into a block.
pub fn put_block(i: u32, sparse: bool, from: u64, into: &mut Block)
    requires { from ≤ 4096 * 40 }
    ensures { into.new.bytes ≡ sample_bytes i sparse from 4096 }
{
    put_bytes(i, sparse, from, &mut into.bytes);
}

/// Writes the bytes of the file of name `i`, from byte `from` on.
#[tactic(auto, unfolding(crate::specs::Shape::sample_bytes))]
fn put_bytes(i: u32, sparse: bool, from: u64, into: &mut [u8])
    requires from { from ≤ 4096 * 40 }
    requires small { length into.old ≤ 4096 }
    ensures { into.new ≡ sample_bytes i sparse from (length into.old) }
{
    for at in 0..into.len() {
        into[at] = file_byte(i, sparse, from + at as u64);
    }
}

/// Byte `j` of the file of name `i`.
fn file_byte(i: u32, sparse: bool, j: u64) -> u8
    requires { j < 2 ^ 32 }
    ensures { result ≡ file_byte i sparse j }
{
    if sparse && j / 4096 % 2 == 1 {
        0
    } else {
        ((31 * i as u64 + 7 * j + j / 4096) % 251) as u8
    }
}

/// Writes stat data of version 0 if it is old, and else of version 1.
fn put_stat(old: bool, stat: &StatData, into: &mut [u8])
    requires room { length into.old ≡ stat_length old }
    requires narrow { FitsOld old stat.now }
    ensures { into.new ≡ stat_bytes old stat.now }
{
    if old {
        put_old_stat(stat, into);
    } else {
        put_new_stat(stat, into);
    }
}

fn put_old_stat(stat: &StatData, into: &mut [u8])
    requires room { length into.old ≡ 32 }
    requires narrow { FitsOld true stat.now }
    ensures { into.new ≡ stat_bytes true stat.now }
{
    put_fields(
        into,
        &[
            Field::U16(stat.mode),
            Field::U16(stat.nlink as u16),
            Field::U16(stat.uid as u16),
            Field::U16(stat.gid as u16),
            Field::U32(stat.size as u32),
            Field::U32(stat.atime),
            Field::U32(stat.mtime),
            Field::U32(stat.ctime),
            Field::U32(stat.blocks),
            Field::U32(stat.first_direct_byte),
        ],
    );
}

fn put_new_stat(stat: &StatData, into: &mut [u8])
    requires { length into.old ≡ 44 }
    ensures { into.new ≡ stat_bytes false stat.now }
{
    put_fields(
        into,
        &[
            Field::U16(stat.mode),
            Field::U16(stat.attrs),
            Field::U32(stat.nlink),
            Field::U64(stat.size),
            Field::U32(stat.uid),
            Field::U32(stat.gid),
            Field::U32(stat.atime),
            Field::U32(stat.mtime),
            Field::U32(stat.ctime),
            Field::U32(stat.blocks),
            Field::U32(stat.rdev),
        ],
    );
}
