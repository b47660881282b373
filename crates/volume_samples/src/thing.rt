// Objects with their items.
use crate::entries::{Entry, entries_body};
use crate::leaf::{Item, Leaf, Object, Part};
use outside::Memory;
use std::alloc::Global;
use vol_block::{Block, put_u16, put_u32, put_u64};

/// An item of an object beside its stat data.
#[derive(Clone, Copy)]
pub enum Content<'a> {
    /// The names of a directory.
    Names(&'a [Entry]),
    /// Names of a directory whose offsets are from this one on, each behind 230 letters `x`.
    LongNames(u32, &'a [Entry]),
    /// From a block of the file on, these pointers.
    Blocks(u64, &'a [u32]),
    /// From a byte of the file on, so many letters `a`, at most 4096.
    Bytes(u64, usize),
}

/// An object with its items, which are of version 0 where it is old. One without a mode has no stat data: it is the rest of an
/// object of the leaf before.
#[derive(Clone, Copy)]
pub struct Thing<'a> {
    pub object: Object,
    pub mode: u16,
    pub size: u64,
    pub old: bool,
    pub content: &'a [Content<'a>],
}

impl Thing<'_> {
    /// Adds an item with this part of it.
    fn add_to(&self, leaf: &mut Leaf, part: Part, body: &[u8]) {
        let item = Item {
            object: self.object,
            part,
            old: self.old,
        };
        leaf.add(item, body);
    }

    /// Adds its stat data, of one name and all times 0.
    fn add_stat(&self, leaf: &mut Leaf) {
        let mut stat = Block::zero();
        put_u16(&mut stat.bytes, 0, self.mode);
        if self.old {
            put_u16(&mut stat.bytes, 2, 1);
            put_u32(&mut stat.bytes, 8, (self.size % (1 << 32)) as u32);
            self.add_to(leaf, Part::Stat, &stat.bytes[..32]);
        } else {
            put_u32(&mut stat.bytes, 4, 1);
            put_u64(&mut stat.bytes, 8, self.size);
            self.add_to(leaf, Part::Stat, &stat.bytes[..44]);
        }
    }

    /// Adds names, if there are any. An item of names is of version 0 whatever the object is.
    fn add_names(
        &self,
        alloc: Global,
        leaf: &mut Leaf,
        first: u32,
        letters: usize,
        entries: &[Entry],
    ) -> Result<(), Memory> {
        if entries.is_empty() {
            return Ok(());
        }
        let body = entries_body(alloc, first, letters, entries)?;
        let part = Part::Entries(first, (entries.len() % 256) as u16);
        leaf.add(Item::of(self.object, part), &body);
        Ok(())
    }

    fn add_content(
        &self,
        alloc: Global,
        leaf: &mut Leaf,
        content: Content<'_>,
    ) -> Result<(), Memory> {
        match content {
            Content::Names(entries) => self.add_names(alloc, leaf, 128, 0, entries)?,
            Content::LongNames(first, entries) => {
                self.add_names(alloc, leaf, first, 230, entries)?
            }
            Content::Blocks(k, pointers) => {
                let body = pointers_body(alloc, pointers)?;
                let first = k.saturating_mul(4096).saturating_add(1);
                self.add_to(leaf, Part::Pointers(first), &body);
            }
            Content::Bytes(at, count) => {
                let body = [b'a'; 4096];
                let part = Part::Bytes(at.saturating_add(1));
                self.add_to(leaf, part, &body[..count.min(4096)]);
            }
        }
        Ok(())
    }
}

/// The body of an item of pointers.
fn pointers_body(alloc: Global, pointers: &[u32]) -> Result<Vec<u8>, Memory> {
    let mut body = Vec::new(alloc);
    for pointer in pointers {
        body.extend_from_slice(&pointer.to_le_bytes())?;
    }
    Ok(body)
}

/// The leaf with these objects, which ascend by their keys.
pub fn leaf_of(alloc: Global, things: &[Thing<'_>]) -> Result<Block, Memory> {
    let mut leaf = Leaf::new();
    for thing in things {
        if thing.mode != 0 {
            thing.add_stat(&mut leaf);
        }
        for content in thing.content {
            thing.add_content(alloc, &mut leaf, *content)?;
        }
    }
    Ok(leaf.finish())
}
