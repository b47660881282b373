// What a test writes on a ReiserFS volume: nodes, bodies of items, bitmaps and the superblock.
use crate::broken::Broken;
use std::alloc::Global;
use vol_block::Block;
use volume_samples::Object;

/// The root directory.
pub const TOP: Object = Object(1, 2);

/// Puts bytes at a place, where they end inside of what is there.
pub fn put_bytes(to: &mut [u8], at: usize, bytes: &[u8]) {
    if at <= to.len() && bytes.len() <= to.len() - at {
        to[at..at + bytes.len()].copy_from_slice(bytes);
    }
}

/// Puts numbers of 32 bits at their places.
pub fn put_numbers(to: &mut [u8], numbers: &[(usize, u32)]) {
    for (at, number) in numbers {
        put_bytes(to, *at, &number.to_le_bytes());
    }
}

/// The seconds of all times.
const MOMENT: u32 = 1_000_000_000;

/// What a stat item tells, beside times and owner.
#[derive(Clone, Copy)]
pub struct Stat {
    pub mode: u16,
    pub names: u32,
    pub size: u64,
    pub sectors: u32,
}

impl Stat {
    /// The bytes of the item.
    pub fn body(self) -> [u8; 44] {
        let mut body = [0; 44];
        put_numbers(
            &mut body,
            &[
                (0, u32::from(self.mode)),
                (4, self.names),
                (24, MOMENT),
                (28, MOMENT),
                (32, MOMENT),
                (36, self.sectors),
            ],
        );
        put_bytes(&mut body, 8, &self.size.to_le_bytes());
        body
    }
}

/// An entry of a directory: its place, which is a hash of its name, the object, and the name with zeros behind it.
#[derive(Clone, Copy)]
pub struct Entry {
    pub place: u32,
    pub object: Object,
    pub name: [u8; 8],
}

impl Entry {
    /// The entry of a directory itself.
    pub fn dot(object: Object) -> Entry {
        Entry {
            place: 1,
            object,
            name: *b".\0\0\0\0\0\0\0",
        }
    }

    /// The entry of the directory above.
    pub fn up(object: Object) -> Entry {
        Entry {
            place: 2,
            object,
            name: *b"..\0\0\0\0\0\0",
        }
    }

    /// The head of the entry, whose name begins at this byte of its item.
    fn head(&self, name: usize) -> [u8; 16] {
        let mut head = [0; 16];
        let name = u32::try_from(name).unwrap_or(0);
        put_numbers(
            &mut head,
            &[
                (0, self.place),
                (4, self.object.0),
                (8, self.object.1),
                // with the state of an entry that can be seen
                (12, name | 4 << 16),
            ],
        );
        head
    }
}

/// The place that a name has in its directory by the hash r5.
pub fn r5(name: &[u8]) -> u32 {
    let mut a = 0u32;
    for c in name {
        let c = u32::from(*c);
        a = a.wrapping_add(c << 4).wrapping_add(c >> 4).wrapping_mul(11);
    }
    a & 0x7fff_ff80
}

/// The body of a directory item: the heads of the entries, and their names from the last one on.
pub fn directory(alloc: Global, entries: &[Entry]) -> Result<Vec<u8>, Broken> {
    let mut body = Vec::new(alloc);
    let mut name = entries.len().saturating_mul(24);
    for entry in entries {
        name = name.saturating_sub(8);
        body.extend_from_slice(&entry.head(name))?;
    }
    for entry in entries.iter().rev() {
        body.extend_from_slice(&entry.name)?;
    }
    Ok(body)
}

/// Marks blocks in a bitmap block, by their places in it.
pub fn mark(map: &mut Block, from: u32, to: u32) {
    for n in from..to {
        let at = (n / 8) as usize;
        if at < 4096 {
            map.bytes[at] |= 1 << (n % 8);
        }
    }
}

/// What a superblock tells of its volume.
#[derive(Clone, Copy)]
pub struct Super {
    pub blocks: u32,
    pub free: u32,
    pub root: u32,
    /// How many blocks the journal has, from block 18 on.
    pub journal: u32,
    pub height: u16,
    pub magic: [u8; 9],
}

impl Super {
    /// The block of a clean volume, whose bitmap has as many blocks as it takes.
    pub fn block(&self) -> Block {
        let bitmaps = self.blocks.div_ceil(32768);
        let mut block = Block::zero();
        put_numbers(
            &mut block.bytes,
            &[
                (0, self.blocks),
                (4, self.free),
                (8, self.root),
                (12, 18),
                (20, self.journal),
                (44, 4096),
                // the volume is clean
                (48, 1 << 16),
                (64, 3),
                (68, u32::from(self.height) | bitmaps << 16),
                (72, 2),
            ],
        );
        put_bytes(&mut block.bytes, 52, &self.magic);
        block
    }
}
