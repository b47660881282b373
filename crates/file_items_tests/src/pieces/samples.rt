// Small volumes whose tree is one leaf.
ghost use Rattle.std.specs.Prelude.{◌≡◌, None, IfOk};

use outside::Memory;
use outside_mem::MemDisk;
use std::alloc::Global;
use volume_samples::{Content, Object, Thing, leaf_of, with_leaf};

pub const FILE: u16 = 0o100644;

const DIRECTORY: u16 = 0o40755;

pub const SYMLINK: u16 = 0o120777;

/// A new object with this number, of these items.
pub const fn thing<'a>(object: u32, mode: u16, size: u64, content: &'a [Content<'a>]) -> Thing<'a> {
    Thing {
        object: Object(2, object),
        mode,
        size,
        old: false,
        content,
    }
}

/// The root directory, of these items.
pub const fn root<'a>(content: &'a [Content<'a>]) -> Thing<'a> {
    Thing {
        object: Object(1, 2),
        mode: DIRECTORY,
        size: 48,
        old: false,
        content,
    }
}

/// A volume of 2,048 blocks with these objects, of which the first 52 are used.
fn small(alloc: Global, things: &[Thing<'_>]) -> Result<MemDisk, Memory> {
    with_leaf(alloc, 2048, &[(0, 52)], &leaf_of(alloc, things)?)
}

/// A volume of these tests.
#[derive(Clone, Copy)]
pub enum Sample {
    /// A root directory alone.
    Empty,
    /// Files with blocks side by side, in reserved blocks, behind holes, and in the tree.
    Divided,
    /// A file of one byte more than what stays in the tree.
    OneByteTooLong,
}

impl Sample {
    pub fn disk(self, alloc: Global) -> Result<MemDisk, Memory> {
        match self {
            Sample::Empty => small(alloc, &[root(&[])]),
            Sample::Divided => divided(alloc),
            Sample::OneByteTooLong => small(
                alloc,
                &[
                    root(&[Content::Names(&[(2, 4, "a")])]),
                    thing(4, FILE, 2049, &[Content::Bytes(0, 2049)]),
                ],
            ),
        }
    }
}

const NAMES: [Content<'static>; 1] = [Content::Names(&[
    (2, 4, "a"),
    (2, 5, "b"),
    (2, 6, "c"),
    (2, 7, "d"),
    (2, 8, "e"),
    (2, 9, "link"),
    (2, 10, "sparse"),
    (2, 11, "old"),
])];

/// Files with blocks side by side, in reserved blocks, behind holes, and in the tree.
pub fn divided(alloc: Global) -> Result<MemDisk, Memory>
    ensures { IfOk result (λ d. d.opened ≡ None) }
{
    let things = [
        root(&NAMES),
        thing(
            4,
            FILE,
            3 * 4096,
            &[Content::Blocks(0, &[2000, 2001, 2002])],
        ),
        thing(
            5,
            FILE,
            4 * 4096,
            &[Content::Blocks(0, &[2003, 2004, 0, 2005])],
        ),
        thing(
            6,
            FILE,
            4 * 4096,
            &[Content::Blocks(0, &[16383, 16384, 16399, 16400])],
        ),
        thing(
            7,
            FILE,
            3 * 4096 + 10,
            &[Content::Blocks(0, &[0]), Content::Bytes(3 * 4096, 16)],
        ),
        thing(8, FILE, 2048, &[Content::Bytes(0, 2048)]),
        thing(
            9,
            SYMLINK,
            13,
            &[Content::Bytes(0, 8), Content::Bytes(8, 5)],
        ),
        thing(
            10,
            FILE,
            1 << 44,
            &[Content::Blocks((1 << 32) - 1, &[3000])],
        ),
        Thing {
            object: Object(2, 11),
            mode: FILE,
            size: 4196,
            old: true,
            content: &[Content::Blocks(0, &[3001]), Content::Bytes(4096, 100)],
        },
    ];
    with_leaf(alloc, 40003, &USED, &leaf_of(alloc, &things)?)
}

const USED: [(u64, u64); 8] = [
    (0, 52),
    (1000, 1005),
    (2000, 2006),
    (3000, 3002),
    (16383, 16401),
    (32760, 32780),
    (39998, 40000),
    (40001, 40002),
];
