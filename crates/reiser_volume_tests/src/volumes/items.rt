// Items of the leaf that is the tree of a small volume.
use outside::Memory;
use std::alloc::Global;
use vol_block::{Block, put_u16, put_u32, put_u64};
use volume_samples::{Entry, Item, Leaf, Object, Part, entries_body};

/// Stat data of version 1, by the fields that rows have.
#[derive(Clone, Copy)]
pub struct StatData {
    pub mode: u16,
    pub attrs: u16,
    pub size: u64,
    pub owner: u32,
    pub group: u32,
    pub times: [u32; 3],
    pub rdev: u32,
}

/// Stat data with a mode and a size; all else is 0.
pub fn stat(mode: u16, size: u64) -> StatData {
    StatData {
        mode,
        attrs: 0,
        size,
        owner: 0,
        group: 0,
        times: [0, 0, 0],
        rdev: 0,
    }
}

/// Adds the stat data of an object.
pub fn add_stat(leaf: &mut Leaf, object: Object, stat: &StatData) {
    let mut body = Block::zero();
    let bytes = &mut body.bytes;
    put_u16(bytes, 0, stat.mode);
    put_u16(bytes, 2, stat.attrs);
    put_u32(bytes, 4, 1);
    put_u64(bytes, 8, stat.size);
    put_u32(bytes, 16, stat.owner);
    put_u32(bytes, 20, stat.group);
    put_u32(bytes, 24, stat.times[0]);
    put_u32(bytes, 28, stat.times[1]);
    put_u32(bytes, 32, stat.times[2]);
    put_u32(bytes, 40, stat.rdev);
    leaf.add(Item::of(object, Part::Stat), &body.bytes[..44]);
}

/// Adds the entries of a directory, if there are any.
pub fn add_entries(
    alloc: Global,
    leaf: &mut Leaf,
    object: Object,
    entries: &[Entry],
) -> Result<(), Memory> {
    if entries.is_empty() {
        return Ok(());
    }
    let body = entries_body(alloc, 128, 0, entries)?;
    let part = Part::Entries(128, (entries.len() % 256) as u16);
    leaf.add(Item::of(object, part), &body);
    Ok(())
}
