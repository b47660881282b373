// Items of the file tree of a volume with what is rare: a symlink in two direct items, a tail behind a hole, two names of one
// hash, and more names of a file than an inode ref holds. Lengths and checksums are those of an independent program.
ghost use Rattle.std.specs.Prelude.{◌≡◌, None, IfOk};

use super::placed;
use super::samples::{FILE, SYMLINK, root, thing};
use btr_keys::Key;
use castagnoli::raw_crc;
use convert_options::Options;
use extent_pieces::Pieces;
use file_items::Items;
use outside::Memory;
use outside_mem::MemDisk;
use refusals::VolAnswer;
use reiser_volume::Volume;
use std::alloc::Global;
use std::test::*;
use volume_samples::{Content, leaf_of, with_leaves};

/// Two names of one hash.
const FIRST: &str = "jofsdkozio";

const SECOND: &str = "yipaolackd";

/// Names of the file 4: fifteen fill an inode ref, and the last two, which are extended, have one hash.
const NAMES: [Content<'static>; 2] = [
    Content::Names(&[(2, 5, FIRST), (2, 6, SECOND)]),
    Content::LongNames(
        4096,
        &[
            (2, 4, "number0000"),
            (2, 4, "number0001"),
            (2, 4, "number0002"),
            (2, 4, "number0003"),
            (2, 4, "number0004"),
            (2, 4, "number0005"),
            (2, 4, "number0006"),
            (2, 4, "number0007"),
            (2, 4, "number0008"),
            (2, 4, "number0009"),
            (2, 4, "number0010"),
            (2, 4, "number0011"),
            (2, 4, "number0012"),
            (2, 4, "number0013"),
            (2, 4, "number0014"),
        ],
    ),
];

const MORE_NAMES: [Content<'static>; 1] = [Content::LongNames(
    65536,
    &[(2, 4, FIRST), (2, 4, SECOND)],
)];

fn crowded(alloc: Global) -> Result<MemDisk, Memory>
    ensures { IfOk result (λ d. d.opened ≡ None) }
{
    let mut rest = root(&MORE_NAMES);
    rest.mode = 0;
    let second = [
        rest,
        thing(4, FILE, 5, &[Content::Bytes(0, 8)]),
        thing(
            5,
            FILE,
            3 * 4096 + 10,
            &[Content::Blocks(0, &[0]), Content::Bytes(3 * 4096, 16)],
        ),
        thing(
            6,
            SYMLINK,
            13,
            &[Content::Bytes(0, 8), Content::Bytes(8, 5)],
        ),
    ];
    let first = leaf_of(alloc, &[root(&NAMES)])?;
    with_leaves(alloc, 2048, &[(0, 54)], &first, &leaf_of(alloc, &second)?)
}

/// The length and the checksum of the body of the item with this key.
fn body_of(
    alloc: Global,
    disk: &mut MemDisk,
    volume: &Volume,
    pieces: &Pieces,
    key: Key,
) -> Result<Option<(usize, u32)>, VolAnswer> {
    let mut items = Items::tree5(alloc, volume, pieces, &Options::plain(), 0)?;
    for _ in 0..100_000 {
        if !items.advance(disk, volume, pieces)? {
            break;
        }
        if items.key() == key {
            let sum = raw_crc(u32::MAX, items.body()) ^ u32::MAX;
            return Ok(Some((items.body().len(), sum)));
        }
    }
    Ok(None)
}

/// An item: its key, and the length and the checksum of its body.
type Told = ((u64, u8, u64), usize, u32);

const TOLD: [Told; 11] = [
    // two names of one hash share an item
    ((256, 84, 3109731101), 80, 901174843),
    ((256, 96, 2), 40, 2487105289),
    ((256, 96, 3), 40, 888048055),
    ((256, 84, 4256380999), 540, 1639423310),
    // an inode ref has no room for all names of the file
    ((257, 1, 0), 160, 721223975),
    ((257, 12, 256), 3750, 20957913),
    ((257, 13, 3662166075), 516, 1102427340),
    // a tail behind a hole
    ((258, 1, 0), 160, 3239366070),
    ((258, 108, 3 * 4096), 53, 2357733418),
    // a symlink in two direct items
    ((259, 1, 0), 160, 1602015252),
    ((259, 108, 0), 34, 1382160756),
];

/// How many items are as they are told, up to the first other one.
fn count_told(
    alloc: Global,
    disk: &mut MemDisk,
    volume: &Volume,
    pieces: &Pieces,
    told: &[Told],
) -> Result<usize, VolAnswer> {
    let mut count = 0usize;
    for ((objectid, kind, offset), length, sum) in told {
        let key = Key {
            objectid: *objectid,
            kind: *kind,
            offset: *offset,
        };
        if body_of(alloc, disk, volume, pieces, key)? != Some((*length, *sum)) {
            break;
        }
        count = count.saturating_add(1);
    }
    Ok(count)
}

/// The same of the volume with what is rare; none where there is no plan.
fn as_told(alloc: Global, told: &[Told]) -> Result<usize, VolAnswer> {
    let mut disk = crowded(alloc)?;
    match placed(alloc, &mut disk)? {
        Some((volume, pieces, _)) => count_told(alloc, &mut disk, &volume, &pieces, told),
        None => Ok(0),
    }
}

#[test]
fn items_of_what_is_rare(rt: HostRuntime) -> Result<(), VolAnswer> {
    assert_eq!(rt; as_told(rt.alloc(), &TOLD)?, TOLD.len());
    Ok(())
}
