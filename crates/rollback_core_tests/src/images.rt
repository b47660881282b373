// The saved image of a small disk.
ghost use Rattle.std.specs.Prelude.{length};

use crate::disks::{Broken, filled, put, see};
use btr_reader::{Btrfs, ImageMap, MappedExtent};
use btr_reader_walk::MapRange;
use btrfs_format::block::SUPER_INFO_OFFSET;
use outside::{Access, BlockSource, Disk, Memory};
use outside_mem::MemDisk;
use refusals::{BtrAnswer, BtrRefusal, BtrRule};
use reiser_bitmap::Bitmap;
use std::alloc::Global;
use std::test::*;
use vol_block::BlockNo;
use volume_samples::Sample;
use volume_state::{ImageSource, Reserved, image_moved, read_way, reserved_used};

/// An image of 6 blocks, of which blocks 1 and 2 lie in blocks 11 and 12 of a device of 300 blocks, block 4 in block 10, and the
/// others are holes.
fn image(alloc: Global) -> Result<ImageMap, Memory> {
    let mut ranges = Vec::new(alloc);
    ranges.push(MapRange {
        logical: 0x10_0000,
        length: 0x1_0000,
        physical: 4096 * 8,
        mirror: None,
    })?;
    let mut pieces = Vec::new(alloc);
    pieces.push(MappedExtent {
        first: 1,
        count: 2,
        disk: 0x10_0000,
        offset: 3 * 4096,
    })?;
    pieces.push(MappedExtent {
        first: 4,
        count: 1,
        disk: 0x10_0000 + 2 * 4096,
        offset: 0,
    })?;
    Ok(ImageMap {
        blocks: 6,
        device: 300,
        ranges,
        pieces,
    })
}

/// A device of 300 blocks in which blocks 8 to 15 hold their numbers, open.
fn device(alloc: Global) -> Result<MemDisk, Broken> {
    let mut disk = MemDisk::new(alloc, 300)?;
    for n in 8..16u8 {
        put(&mut disk, u64::from(n), &filled(n))?;
    }
    disk.settle();
    disk.open("", Access::Read)?;
    Ok(disk)
}

/// The byte of a block of the image: all of the block are the same. None where there is a fault.
fn byte(source: &mut ImageSource<'_, MemDisk>, n: BlockNo) -> Option<u8> {
    let mut block = filled(7);
    let is_read = n < source.len() && source.read(n, &mut block).is_ok();
    if is_read && block == filled(block.bytes[0]) {
        Some(block.bytes[0])
    } else {
        None
    }
}

/// How many blocks the image has, these of them one behind the other, and how many blocks of the device were read for them.
type Told = (u64, [Option<u8>; 6], u64);

/// Reads these blocks of the image, where the call of the device of this number fails, if one is to.
fn told(alloc: Global, failing: Option<u64>, blocks: &[BlockNo; 6]) -> Result<Told, Broken> {
    let image = image(alloc)?;
    let mut disk = device(alloc)?;
    if let Some(call) = failing {
        disk.fail_call(call)?;
    }
    let (len, bytes) = bytes_of(&image, &mut disk, blocks);
    Ok((len, bytes, disk.reads()))
}

/// The length of the image, and these blocks of it.
fn bytes_of(image: &ImageMap, disk: &mut MemDisk, blocks: &[BlockNo; 6]) -> (u64, [Option<u8>; 6]) {
    let mut bytes = [None; 6];
    if image.device > disk.len() {
        return (0, bytes);
    }
    let mut source = ImageSource::new(disk, image);
    for i in 0..6usize {
        bytes[i] = byte(&mut source, blocks[i]);
    }
    (source.len(), bytes)
}

/// Three of the blocks are holes.
#[test]
fn blocks_come_from_their_places(rt: HostRuntime) -> Result<(), Broken> {
    let bytes = [Some(0), Some(11), Some(12), Some(0), Some(10), Some(0)];
    let told = told(rt.alloc(), None, &[0, 1, 2, 3, 4, 5])?;
    see(told == (6, bytes, 3), "each block has its byte")
}

/// A hole is read without the device.
#[test]
fn a_fault_of_the_device_is_one_of_the_image(rt: HostRuntime) -> Result<(), Broken> {
    let bytes = [Some(11), Some(0), None, Some(10), Some(10), Some(0)];
    let told = told(rt.alloc(), Some(1), &[1, 0, 4, 4, 4, 0])?;
    see(told == (6, bytes, 3), "the block is read the next time")
}

/// An image of 512 blocks whose blocks from 256 on lie in their places, and all others in blocks 1000 and up.
fn kept(alloc: Global) -> Result<ImageMap, Memory> {
    let mut ranges = Vec::new(alloc);
    ranges.push(MapRange {
        logical: 0x10_0000,
        length: 0x1000_0000,
        physical: 0x10_0000,
        mirror: None,
    })?;
    let mut pieces = Vec::new(alloc);
    pieces.push(MappedExtent {
        first: 0,
        count: 256,
        disk: 4096 * 1000,
        offset: 0,
    })?;
    pieces.push(MappedExtent {
        first: 256,
        count: 200,
        disk: 4096 * 256,
        offset: 0,
    })?;
    Ok(ImageMap {
        blocks: 512,
        device: 70000,
        ranges,
        pieces,
    })
}

/// The block of the image that was moved, where these are used.
fn moved(alloc: Global, blocks: &[BlockNo]) -> Result<Option<BlockNo>, Memory> {
    let image = kept(alloc)?;
    let mut used = Bitmap::new(alloc, 512)?;
    for n in blocks {
        if *n < used.len() {
            used.insert(*n);
        }
    }
    Ok(image_moved(&image, &used))
}

#[test]
fn a_moved_block_is_told(rt: HostRuntime) -> Result<(), Broken> {
    const USED: [BlockNo; 7] = [0, 16, 255, 256, 300, 455, 456];
    see(moved(rt.alloc(), &USED[..6])?.is_none(), "none has moved")?;
    see(moved(rt.alloc(), &USED)? == Some(456), "the last one has")
}

/// A Btrfs volume without a saved image, whose chunk tree lies from block 8448 on, and whose root tree from block 8704 on.
fn btrfs(alloc: Global, sample: &Sample) -> Result<(MemDisk, Btrfs), Broken> {
    let mut disk = sample.disk(alloc)?;
    disk.settle();
    disk.open("", Access::Read)?;
    let volume = Btrfs::open(alloc, &mut disk)?;
    Ok((disk, volume))
}

type Use = Result<Option<BlockNo>, BtrAnswer>;

/// Which reserved block of a ReiserFS volume of so many blocks a Btrfs volume uses, told twice. The first time the call of the device of this
/// number fails, if one is to.
fn used_twice(
    alloc: Global,
    sample: &Sample,
    failing: Option<u64>,
    blocks: u64,
) -> Result<(Use, Use), Broken> {
    let (mut disk, volume) = btrfs(alloc, sample)?;
    if let Some(call) = failing {
        disk.fail_call(call)?;
    }
    let first = reserved_used(alloc, &volume, &mut disk, blocks);
    let second = reserved_used(alloc, &volume, &mut disk, blocks);
    Ok((first, second))
}

const TWICE: Sample = Sample {
    mirror: Some(4096 * 9984),
    ..Sample::PLAIN
};

const LOGGED: Sample = Sample {
    log_root: 0x230_0000,
    ..Sample::PLAIN
};

const LOG: BtrAnswer = BtrAnswer::Refused(BtrRefusal::LogPending {
    address: 0x230_0000,
});

const USES: [(Sample, u64, Use); 9] = [
    (Sample::PLAIN, 8448, Ok(None)),
    (Sample::PLAIN, 8449, Ok(Some(8448))),
    (Sample::PLAIN, 8704, Ok(None)),
    (Sample::PLAIN, 8712, Ok(Some(8704))),
    (Sample::PLAIN, 12_288, Ok(None)),
    // the second copy is in use too
    (TWICE, 8712, Ok(Some(8704))),
    (TWICE, 9984, Ok(None)),
    (TWICE, 9985, Ok(Some(9984))),
    (LOGGED, 8448, Err(LOG)),
];

#[test]
fn reserved_blocks_in_use_are_told(rt: HostRuntime) -> Result<(), Broken> {
    for (sample, blocks, told) in &USES {
        let both = used_twice(rt.alloc(), sample, None, *blocks)?;
        see(both == (*told, *told), "the block in use is told")?;
    }
    Ok(())
}

#[test]
fn a_fault_is_no_reserved_block(rt: HostRuntime) -> Result<(), Broken> {
    let both = used_twice(rt.alloc(), &Sample::PLAIN, Some(1), 8448)?;
    see(both == (Err(BtrAnswer::Fault), Ok(None)), "a fault is none")
}

/// Which reserved block is told on a device of another length.
fn used_elsewhere(alloc: Global) -> Result<Use, Broken> {
    let (_, volume) = btrfs(alloc, &Sample::PLAIN)?;
    Ok(reserved_used(alloc, &volume, &mut device(alloc)?, 8448))
}

const SIZE: BtrAnswer = BtrAnswer::Refused(BtrRefusal::BadBtrfs {
    address: SUPER_INFO_OFFSET,
    rule: BtrRule::SuperField,
});

#[test]
fn another_device_is_told(rt: HostRuntime) -> Result<(), Broken> {
    see(
        used_elsewhere(rt.alloc())? == Err(SIZE),
        "the length is told",
    )
}

/// How many blocks the way to the image reads, whether it leads to none, the reserved block in use, and whether that holds for the whole device.
fn way(alloc: Global) -> Result<(u64, bool, Option<BlockNo>, bool), Broken> {
    let (mut disk, volume) = btrfs(alloc, &Sample::PLAIN)?;
    let before = disk.reads();
    let way = read_way(alloc, &volume, &mut disk)?;
    Ok((
        disk.reads().saturating_sub(before),
        way.map.is_none(),
        way.reserved.used,
        way.reserved.holds_of(12_288),
    ))
}

/// Four blocks: the file tree is one leaf, and names no tree of an image.
#[test]
fn the_way_reads_each_node_once(rt: HostRuntime) -> Result<(), Broken> {
    see(way(rt.alloc())? == (4, true, None, true), "four are read")
}

/// The reserved block in use that is told for 8463 blocks, another number of blocks, and whether it holds of that.
const HOLDS: [(Option<BlockNo>, u64, bool); 9] = [
    (None, 8448, true),
    (None, 8449, true),
    (None, 8463, true),
    (None, 8465, false),
    (None, 8447, false),
    (None, 9600, true),
    (Some(8450), 8450, false),
    (Some(8450), 8451, true),
    (Some(8450), 8464, false),
];

#[test]
fn what_is_told_of_one_length_holds_of_others() -> Result<(), Broken> {
    for (used, blocks, holds) in &HOLDS {
        let told = Reserved {
            blocks: 8463,
            used: *used,
        };
        see(told.holds_of(*blocks) == *holds, "it holds of these")?;
    }
    Ok(())
}
