// The items of a sample volume. Their checksums are those of an independent program that writes the same items.
ghost use Rattle.std.specs.Prelude.{◌≡◌, false};
ghost use Rattle.file_items.specs.Stream.{FitsStream};

use castagnoli::raw_crc;
use convert_options::Options;
use file_items::Items;
use outside::{Access, Disk, Memory};
use outside_mem::MemDisk;
use refusals::VolAnswer;
use reiser_make::make;
use reiser_volume::Volume;
use std::alloc::Global;
use std::test::*;
use unit_plan::{Piece, PieceList};

/// Kept pieces of the sample of number 25: the first block, how many blocks, and of an owned one the inode and the block of
/// the file.
const KEPT: [(u64, u64, u64, u64); 23] = [
    (256, 7955, 0, 0),
    (8211, 1, 258, 0),
    (8212, 1, 258, 2),
    (8213, 1, 258, 4),
    (8214, 1, 258, 6),
    (8215, 1, 258, 8),
    (8216, 1, 258, 10),
    (8217, 1, 260, 0),
    (8218, 2, 261, 0),
    (8220, 15, 264, 0),
    (8235, 5, 267, 0),
    (8240, 2, 269, 0),
    (8242, 6, 270, 0),
    (8248, 4, 271, 0),
    (8252, 1, 272, 0),
    (8253, 19, 273, 0),
    (8272, 6, 274, 0),
    (8278, 6, 275, 0),
    (8284, 1, 276, 0),
    (8285, 1, 276, 2),
    (8286, 1, 277, 0),
    (8287, 1, 277, 2),
    (8288, 11, 0, 0),
];

/// Its tails, by inode and block of the file.
const TAILS: [(u64, u64); 7] = [
    (265, 0),
    (266, 0),
    (269, 2),
    (272, 1),
    (274, 6),
    (275, 6),
    (278, 0),
];

/// The first block of the unit in which copies lie.
const COPIES: u64 = 9216;

/// Pieces in a list.
#[derive(Drop)]
struct Pieces {
    items: Vec<Piece>,
}

impl PieceList for Pieces {
    ghost pieces = { λ p. p.items.items };

    fn len(&self) -> usize {
        self.items.len()
    }

    fn get(&self, i: usize) -> &Piece {
        &self.items[i]
    }
}

/// Adds the kept pieces.
fn push_kept(items: &mut Vec<Piece>) -> Result<(), Memory> {
    for (first, count, inode, block) in &KEPT {
        let owner = if *inode == 0 {
            None
        } else {
            Some((*inode, *block))
        };
        items.push(Piece {
            from: Some(*first),
            count: *count,
            owner,
            place: *first,
        })?;
    }
    Ok(())
}

/// Adds the copies: blocks 0 to 255 are reserved.
fn push_copies(items: &mut Vec<Piece>) -> Result<(), Memory> {
    for block in 0..256 {
        items.push(Piece {
            from: Some(block),
            count: 1,
            owner: None,
            place: COPIES + block,
        })?;
    }
    Ok(())
}

/// Adds the tails, which lie behind the copies.
fn push_tails(items: &mut Vec<Piece>) -> Result<(), Memory> {
    let mut place = COPIES + 256;
    for owner in &TAILS {
        items.push(Piece {
            from: None,
            count: 1,
            owner: Some(*owner),
            place,
        })?;
        place = place.wrapping_add(1);
    }
    Ok(())
}

/// All pieces, by their places.
fn all_pieces(alloc: Global) -> Result<Pieces, Memory> {
    let mut items = Vec::new(alloc);
    push_kept(&mut items)?;
    push_copies(&mut items)?;
    push_tails(&mut items)?;
    Ok(Pieces { items })
}

/// How many items there are, and the checksum of all of them: of each the key, the length of the body, and the body.
fn sum(
    items: &mut Items,
    disk: &mut MemDisk,
    volume: &Volume,
    pieces: &Pieces,
) -> Result<(u64, u32), VolAnswer>
    requires live { items.old.spent ≡ false }
    requires fits { FitsStream items.old volume.now pieces.now.items.items }
{
    let mut count = 0_u64;
    let mut sum = u32::MAX;
    for _ in 0..100_000 {
        if !items.advance(disk, volume, pieces)? {
            break;
        }
        count = count.wrapping_add(1);
        sum = raw_crc(sum, &items.key().to_bytes());
        let length = items.body().len().min(u32::MAX as usize) as u32;
        sum = raw_crc(sum, &length.to_le_bytes());
        sum = raw_crc(sum, items.body());
    }
    Ok((count, sum ^ u32::MAX))
}

/// The moment of the conversion.
const NOW: u64 = 1_700_000_000;

/// The sums of the file tree, of the image's tree and of the relocation tree.
fn sums(alloc: Global, disk: &mut MemDisk) -> Result<[(u64, u32); 3], VolAnswer> {
    let volume = Volume::open(alloc, disk)?;
    let pieces = all_pieces(alloc)?;
    let files = sum_of_files(alloc, disk, &volume, &pieces)?;
    let image = sum_of_image(alloc, disk, &volume, &pieces)?;
    let relocation = sum_of_relocation(alloc, disk, &volume, &pieces)?;
    Ok([files, image, relocation])
}

fn sum_of_files(
    alloc: Global,
    disk: &mut MemDisk,
    volume: &Volume,
    pieces: &Pieces,
) -> Result<(u64, u32), VolAnswer> {
    let mut items = Items::tree5(alloc, volume, pieces, &Options::plain(), 0)?;
    sum(&mut items, disk, volume, pieces)
}

fn sum_of_image(
    alloc: Global,
    disk: &mut MemDisk,
    volume: &Volume,
    pieces: &Pieces,
) -> Result<(u64, u32), VolAnswer> {
    let mut items = Items::image(alloc, volume, pieces, &Options::plain(), NOW)?;
    sum(&mut items, disk, volume, pieces)
}

fn sum_of_relocation(
    alloc: Global,
    disk: &mut MemDisk,
    volume: &Volume,
    pieces: &Pieces,
) -> Result<(u64, u32), VolAnswer> {
    let mut items = Items::relocation(alloc, NOW)?;
    sum(&mut items, disk, volume, pieces)
}

/// The sample of number 25, open.
fn sample(alloc: Global) -> Result<MemDisk, Fail> {
    let mut disk = MemDisk::new(alloc, 12288)?;
    disk.open("", Access::Write)?;
    make(alloc, 25, 12288, &mut disk)?;
    Ok(disk)
}

#[test]
fn items_are_those_of_an_independent_program(rt: HostRuntime) -> Result<(), Fail> {
    let mut disk = sample(rt.alloc())?;
    assert_eq!(rt;
        sums(rt.alloc(), &mut disk)?,
        [(138, 3996222682), (285, 1046254154), (2, 1116823260)]
    );
    Ok(())
}
