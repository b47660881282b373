// What Linux asks of one file extent.
ghost use Rattle.std.specs.Prelude.{◌≡◌};
ghost use Rattle.btr_check_rules.specs.btr_reader.btr_keys.FileExtent.{content_value, file_extent_value};
ghost use Rattle.btr_check_items.specs.ExtentTests.{are_whole, is_compressed, is_range, is_whole, keeps_content, keeps_extent, keeps_head, keeps_inline, may_have_extents, needs_sums, same_test};

use crate::inode_rules::has_no_sums;
use btr_check_rules::btr_reader::btr_reader_contents::is_hole;
use btr_check_rules::btr_reader::btr_reader_names::kind_of_mode;
use btr_check_rules::btr_reader::btr_reader_walk::btr_keys::{
    DiskRange, ExtentContent, FileExtent, Inode,
};
use btr_check_rules::btr_reader::btr_super::Super;

/// The most bytes that are compressed together.
const COMPRESSED_TOGETHER: u64 = 128 * 1024;

/// Whether a number of bytes is whole blocks.
fn is_whole(bytes: u64) -> bool
    ensures { result ≡ is_whole bytes }
{
    bytes % 4096 == 0
}

/// Whether a part of a disk extent, and what it has there and in memory, are whole blocks.
fn are_whole(ram: u64, d: &DiskRange) -> bool
    ensures { result ≡ are_whole ram d.now }
{
    is_whole(d.disk_bytenr)
        && is_whole(d.disk_num_bytes)
        && is_whole(d.offset)
        && is_whole(d.num_bytes)
        && is_whole(ram)
}

/// Whether a part of a disk extent is whole blocks, in what the extent has in memory, and where it is not compressed in
/// what it has on the disk. A hole has nothing there.
fn is_range(ram: u64, compression: u8, d: &DiskRange) -> bool
    ensures { result ≡ is_range ram compression d.now }
{
    let end = d.offset as u128 + d.num_bytes as u128;
    are_whole(ram, d)
        && d.num_bytes != 0
        && end <= ram as u128
        && (is_hole(d) || compression != 0 || end <= d.disk_num_bytes as u128)
        && same_test(is_hole(d), d.disk_num_bytes == 0)
}

/// Whether two tests gave the same.
fn same_test(a: bool, b: bool) -> bool
    ensures { result ≡ same_test a b }
{
    if a { b } else { !b }
}

/// Whether what is compressed has a place on the disk, and fewer bytes there than its 128 KiB or less.
fn is_compressed(ram: u64, d: &DiskRange) -> bool
    ensures { result ≡ is_compressed ram d.now }
{
    !is_hole(d) && ram <= COMPRESSED_TOGETHER && d.disk_num_bytes < ram
}

/// Whether an inline extent begins the file, and tells its bytes.
fn keeps_inline(place: u64, ram: u64, compression: u8, length: u64) -> bool
    ensures { result ≡ keeps_inline place ram compression length }
{
    place == 0 && 1 <= ram && ram <= 4096 && length < 4096 && (compression != 0 || ram == length)
}

/// Whether what an extent at a place of its file holds is as Linux writes it.
fn keeps_content(place: u64, e: &FileExtent<'_>) -> bool
    ensures { result ≡ keeps_content place e.now.ram_bytes e.now.compression (content_value e.now.content) }
{
    match &e.content {
        ExtentContent::Inline(bytes) => {
            keeps_inline(place, e.ram_bytes, e.compression, bytes.len() as u64)
        }
        ExtentContent::Regular(d) => {
            is_range(e.ram_bytes, e.compression, d)
                && (e.compression == 0 || is_compressed(e.ram_bytes, d))
        }
        ExtentContent::Prealloc(d) => is_range(e.ram_bytes, e.compression, d) && e.compression == 0,
    }
}

/// Whether an extent has to have checksums: compressed data has.
fn needs_sums(e: &FileExtent<'_>) -> bool
    ensures { result ≡ needs_sums e.now.compression (content_value e.now.content) }
{
    match e.content {
        ExtentContent::Inline(_) => false,
        _ => e.compression != 0,
    }
}

/// Whether an inode may have extents: files and symlinks do.
pub fn may_have_extents(inode: &Inode) -> bool
    ensures { result ≡ may_have_extents inode.now }
{
    match kind_of_mode(inode.mode) {
        Some(kind) => kind.has_bytes(),
        None => false,
    }
}

/// Whether an extent is not newer than the superblock, and encoded as Linux knows.
fn keeps_head(sup: &Super, e: &FileExtent<'_>) -> bool
    ensures { result ≡ keeps_head sup.now (file_extent_value e.now) }
{
    e.generation <= sup.generation && e.encryption == 0 && e.other == 0 && e.compression <= 3
}

/// Whether Linux takes a file extent of an inode, at a place of its file.
pub fn keeps_extent(sup: &Super, inode: &Inode, place: u64, e: &FileExtent<'_>) -> bool
    ensures { result ≡ keeps_extent sup.now inode.now place (file_extent_value e.now) }
{
    keeps_head(sup, e)
        && is_whole(place)
        && keeps_content(place, e)
        && !(needs_sums(e) && has_no_sums(inode))
        && may_have_extents(inode)
}
