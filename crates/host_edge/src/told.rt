ghost use Rattle.std.specs.Prelude.{◌≡◌, ◌≤◌, ◌<◌, ◌+◌, ℕ, length};

use outside::BlockNo;
use std::alloc::Global;

/// How many blocks a window has at most: 64 MiB.
const WINDOW: usize = 16384;
/// How many blocks are read by one call at most: 128 KiB.
pub const RUN: usize = 32;
/// How many blocks are kept of what is told, at most: 16 GiB, which take 32 MiB of memory.
const MOST: usize = 1 << 22;
/// Among how many blocks at the start of a window one has to be read, for the window to be reached.
const START: usize = 64;

/// Which blocks will be read, in the order in which they will be, as the program has told.
///
/// They are read ahead by windows of at most 64 MiB: the blocks of a window ascend, and those that follow one another
/// make runs. So the disk goes over a window once, and what is read ahead fits into memory until it is asked for.
#[derive(Drop)]
pub struct ToldBlocks {
    blocks: Vec<BlockNo>,
    /// Where the next window begins.
    next: usize,
    ghost inside: { next ≤ length blocks.items },
}

/// A part of what is told: the next blocks that are read ahead.
#[derive(Clone, Copy, Debug)]
pub struct Window {
    pub start: usize,
    pub end: usize,
}

/// Blocks that follow one another.
#[derive(Clone, Copy, Debug)]
pub struct BlockRun {
    pub first: BlockNo,
    pub count: usize,
}

impl ToldBlocks {
    /// Nothing is told.
    pub fn none(alloc: Global) -> ToldBlocks {
        ToldBlocks {
            blocks: Vec::new(alloc),
            next: 0,
        }
    }

    /// These blocks are told, of which the first ones are kept.
    pub fn new(mut blocks: Vec<BlockNo>) -> ToldBlocks {
        blocks.truncate(MOST);
        ToldBlocks { blocks, next: 0 }
    }

    /// Whether a read of this block reaches the next window.
    pub fn is_reached(&self, n: BlockNo) -> bool {
        let rest = &self.blocks[self.next..];
        rest[..rest.len().min(START)].contains(&n)
    }

    /// Goes on to the next window. Its blocks ascend from now on.
    pub fn open_window(&mut self) -> Window
        ensures order { result.start ≤ result.end }
        ensures within { result.end ≤ length self.new.blocks.items }
    {
        let start = self.next;
        let end = start + (self.blocks.len() - start).min(WINDOW);
        self.blocks[start..end].sort_unstable();
        self.next = end;
        Window { start, end }
    }

    /// The run that begins at a place of the window.
    pub fn run(&self, at: usize, end: usize) -> BlockRun
        requires some { at < end }
        requires window { end ≤ length self.now.blocks.items }
        ensures some { 0 < result.count }
        ensures within { at + result.count ≤ end }
        ensures short { result.count ≤ 32 }
    {
        let first = self.blocks[at];
        let most = (end - at).min(RUN);
        let mut count = 1;
        while count < most && self.blocks[at + count].wrapping_sub(first) == count as u64 {
            count += 1;
        }
        BlockRun { first, count }
    }

    /// Forgets what is left.
    pub fn forget(&mut self) {
        self.next = self.blocks.len();
    }
}
