ghost use Rattle.std.specs.Prelude.{◌≡◌, ◌<◌, ◌+◌, ◌*◌, ◌^◌, [], IfErr, OnOk, Contains};
ghost use Rattle.btr_reader_walk.specs.btr_keys.FileExtent.{content_value, file_extent_value};
ghost use Rattle.btr_reader_contents.specs.Extents.{extent_length, range_covers, covered_by, range_is_aligned, is_aligned, has_form, is_hole, unmapped_in, range_refusals, place_refusals, extent_refusals};

use btr_reader_walk::{
    BtrRefusal, BtrRule, DiskRange, ExtentContent, Feature, FileExtent, MapRange, place,
};

/// How far the extents of a file go that were met, both in bytes: where the last one ends in the file, and what the
/// regular ones cover, holes apart.
#[derive(Clone, Copy, Debug)]
pub struct Reach {
    pub end: u128,
    pub covered: u128,
}

/// How many bytes of the file an extent is.
pub fn extent_length(content: &ExtentContent<'_>) -> u64
    ensures { result ≡ extent_length (content_value content.now) }
{
    match content {
        ExtentContent::Inline(bytes) => bytes.len() as u64,
        ExtentContent::Regular(range) => range.num_bytes,
        ExtentContent::Prealloc(range) => range.num_bytes,
    }
}

/// Whether a range has no place on the device.
pub fn is_hole(range: &DiskRange) -> bool
    ensures { result ≡ is_hole range.now }
{
    range.disk_bytenr == 0
}

fn range_covers(range: &DiskRange) -> u64
    ensures { result ≡ range_covers range.now }
{
    if is_hole(range) { 0 } else { range.num_bytes }
}

/// How many bytes an extent adds to those that are covered.
pub fn covered_by(content: &ExtentContent<'_>) -> u64
    ensures { result ≡ covered_by (content_value content.now) }
{
    match content {
        ExtentContent::Inline(_) => 0,
        ExtentContent::Regular(range) => range_covers(range),
        ExtentContent::Prealloc(_) => 0,
    }
}

/// Whether a range is in whole blocks, in the file and on the device, and lies within its disk extent.
fn range_is_aligned(offset: u64, range: &DiskRange) -> bool
    ensures { result ≡ range_is_aligned offset range.now }
{
    offset % 4096 == 0
        && range.num_bytes % 4096 == 0
        && (is_hole(range)
            || (range.disk_bytenr % 4096 == 0
                && range.offset % 4096 == 0
                && range.offset as u128 + range.num_bytes as u128 <= range.disk_num_bytes as u128))
}

fn is_aligned(offset: u64, content: &ExtentContent<'_>) -> bool
    ensures { result ≡ is_aligned offset (content_value content.now) }
{
    match content {
        ExtentContent::Inline(_) => true,
        ExtentContent::Regular(range) => range_is_aligned(offset, range),
        ExtentContent::Prealloc(range) => range_is_aligned(offset, range),
    }
}

/// Whether an extent at byte `offset` of a file begins behind those before, is in whole blocks, and covers few enough
/// bytes together with them.
fn has_form(reach: &Reach, offset: u64, content: &ExtentContent<'_>) -> bool
    requires { reach.now.covered < 2 ^ 59 }
    ensures { result ≡ has_form reach.now.end reach.now.covered offset (content_value content.now) }
{
    reach.end <= offset as u128
        && is_aligned(offset, content)
        && reach.covered + (covered_by(content) as u128) < 1 << 59
}

/// Whether each of `count` blocks from an address on lies in a chunk; else the first that does not.
fn check_mapped(ranges: &[MapRange], count: u64, address: u128) -> Result<(), BtrRefusal>
    requires { address < 2 ^ 65 }
    ensures ok { OnOk result (unmapped_in ranges.now count address ≡ []) }
    ensures err { IfErr result (λ r. Contains (unmapped_in ranges.now count address) r) }
{
    for i in 0..count {
        let at = address + 4096 * i as u128;
        if place(ranges, at).is_none() {
            return Err(BtrRefusal::BadBtrfs {
                address: (at % (1 << 64)) as u64,
                rule: BtrRule::Unmapped,
            });
        }
    }
    Ok(())
}

fn check_range(ranges: &[MapRange], range: &DiskRange) -> Result<(), BtrRefusal>
    ensures ok { OnOk result (range_refusals ranges.now range.now ≡ []) }
    ensures err { IfErr result (λ r. Contains (range_refusals ranges.now range.now) r) }
{
    if is_hole(range) {
        return Ok(());
    }
    check_mapped(
        ranges,
        range.num_bytes / 4096,
        range.disk_bytenr as u128 + range.offset as u128,
    )
}

/// Whether each block of a regular extent lies in a chunk.
fn check_places(ranges: &[MapRange], content: &ExtentContent<'_>) -> Result<(), BtrRefusal>
    ensures ok { OnOk result (place_refusals ranges.now (content_value content.now) ≡ []) }
    ensures err { IfErr result (λ r. Contains (place_refusals ranges.now (content_value content.now)) r) }
{
    match content {
        ExtentContent::Inline(_) => Ok(()),
        ExtentContent::Regular(range) => check_range(ranges, range),
        ExtentContent::Prealloc(_) => Ok(()),
    }
}

/// What is wrong with an extent from byte `offset` of a file on, behind those before.
pub fn check_extent(
    reach: &Reach,
    ranges: &[MapRange],
    offset: u64,
    leaf: u64,
    extent: &FileExtent<'_>,
) -> Result<(), BtrRefusal>
    requires { reach.now.covered < 2 ^ 59 }
    ensures ok { OnOk result (extent_refusals ranges.now reach.now.end reach.now.covered offset leaf (file_extent_value extent.now) ≡ []) }
    ensures few { OnOk result (reach.now.covered + covered_by (content_value extent.now.content) < 2 ^ 59) }
    ensures err { IfErr result (λ r. Contains (extent_refusals ranges.now reach.now.end reach.now.covered offset leaf (file_extent_value extent.now)) r) }
{
    if extent.compression != 0 {
        return Err(BtrRefusal::Unsupported {
            feature: Feature::Compression,
            value: extent.compression as u64,
        });
    }
    if extent.encryption != 0 {
        return Err(BtrRefusal::Unsupported {
            feature: Feature::Encryption,
            value: extent.encryption as u64,
        });
    }
    if !has_form(reach, offset, &extent.content) {
        return Err(BtrRefusal::BadBtrfs {
            address: leaf,
            rule: BtrRule::ExtentForm,
        });
    }
    check_places(ranges, &extent.content)
}
