// Leaves, item by item.
use vol_block::{Block, put_u16, put_u32, put_u64};

/// An object: the number of its directory, and its own.
#[derive(Clone, Copy)]
pub struct Object(pub u32, pub u32);

/// What an item has of its object, and from where on. Bytes are counted from 1, as keys do.
#[derive(Clone, Copy)]
pub enum Part {
    /// Its stat data.
    Stat,
    /// Pointers to blocks of a file, from this byte on.
    Pointers(u64),
    /// Bytes of a file or of a target, from this one on.
    Bytes(u64),
    /// So many entries of a directory, from this offset on.
    Entries(u32, u16),
}

impl Part {
    /// The second half of the key: of version 0 an offset and a mark of the kind, of version 1 both in one number.
    fn key(self, old: bool) -> u64 {
        let (offset, old_mark, mark) = match self {
            Part::Stat => (0, 0, 0),
            Part::Pointers(first) => (first, 0xFFFF_FFFE_u64, 1_u64),
            Part::Bytes(first) => (first, 0xFFFF_FFFF, 2),
            Part::Entries(first, _) => (u64::from(first), 500, 3),
        };
        if old {
            offset % (1 << 32) | old_mark << 32
        } else {
            offset % (1 << 60) | mark << 60
        }
    }

    /// What the head has as a count: how many entries there are, and of an item of bytes or of stat data what Linux writes there.
    fn count(self) -> u16 {
        match self {
            Part::Entries(_, count) => count,
            Part::Pointers(_) => 0,
            Part::Stat | Part::Bytes(_) => 0xFFFF,
        }
    }
}

/// What an item is.
#[derive(Clone, Copy)]
pub struct Item {
    pub object: Object,
    pub part: Part,
    /// Whether it is of version 0.
    pub old: bool,
}

impl Item {
    /// An item of the version that a volume of format 3.6 has: entries are of version 0.
    pub fn of(object: Object, part: Part) -> Item {
        Item {
            object,
            part,
            old: matches!(part, Part::Entries(_, _)),
        }
    }
}

/// A leaf that is filled item by item.
#[derive(Drop)]
pub struct Leaf {
    block: Block,
    count: u16,
    low: usize,
}

impl Leaf {
    /// A leaf without items.
    pub fn new() -> Leaf {
        Leaf {
            block: Block::zero(),
            count: 0,
            low: 4096,
        }
    }

    /// Adds an item behind the others, if there is room.
    pub fn add(&mut self, item: Item, body: &[u8]) {
        let at = 24 + 24 * self.count as usize;
        if self.low > 4096 || self.low < body.len() || at > 4072 {
            return;
        }
        let first = self.low - body.len();
        let bytes = &mut self.block.bytes;
        bytes[first..self.low].copy_from_slice(body);
        put_u32(bytes, at, item.object.0);
        put_u32(bytes, at + 4, item.object.1);
        put_u64(bytes, at + 8, item.part.key(item.old));
        put_u16(bytes, at + 16, item.part.count());
        put_u16(bytes, at + 18, (body.len() % 4096) as u16);
        put_u16(bytes, at + 20, (first % 4096) as u16);
        put_u16(bytes, at + 22, if item.old { 0 } else { 1 });
        self.low = first;
        self.count = self.count.saturating_add(1);
    }

    /// The block of the leaf.
    pub fn finish(&self) -> Block {
        let mut block = Block::zero();
        block.bytes = self.block.bytes;
        put_u16(&mut block.bytes, 0, 1);
        put_u16(&mut block.bytes, 2, self.count);
        block
    }
}
