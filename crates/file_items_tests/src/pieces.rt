// Pieces of small volumes in memory, and the items that are made of them.
ghost use Rattle.std.specs.Prelude.{◌≡◌, None};

mod items;
mod samples;

use convert_options::Options;
use extent_pieces::Pieces;
use outside::{Access, Disk};
use outside_mem::MemDisk;
use refusals::VolAnswer;
use reiser_volume::Volume;
use samples::{Sample, divided};
use std::alloc::Global;
use std::test::*;
use unit_plan::{Counts, Piece, PieceList, Plan, choose, needed};

/// The volume of a disk.
fn opened(alloc: Global, disk: &mut MemDisk) -> Result<Volume, VolAnswer> {
    disk.settle();
    disk.open("", Access::Read)?;
    Volume::open(alloc, disk)
}

/// The pieces of a volume, with or without small files that stay in the tree; and the units that its conversion by no other
/// option takes, all of them and those of the chunk tree.
fn found(
    alloc: Global,
    disk: &mut MemDisk,
    volume: &Volume,
    inline: bool,
) -> Result<(Pieces, (u64, u64)), VolAnswer> {
    let mut options = Options::plain();
    options.inline = inline;
    let pieces = Pieces::find(alloc, disk, volume, &options)?;
    let need = needed(&pieces.counts(), &Options::plain());
    Ok((pieces, (need.total(), need.system)))
}

/// A piece.
#[derive(Clone, Copy)]
enum Wanted {
    /// So many blocks from this one on stay where they are. They belong to this block of a file, by its inode, or to none.
    Kept(u64, u64, Option<(u64, u64)>),
    /// A copy of a block, which belongs to this block of a file or to none.
    Copied(u64, Option<(u64, u64)>),
    /// This block of a file is made of bytes in the tree.
    Tail(u64, u64),
}

impl Wanted {
    fn piece(self) -> Piece {
        let (from, count, owner) = match self {
            Wanted::Kept(first, count, owner) => (Some(first), count, owner),
            Wanted::Copied(block, owner) => (Some(block), 1, owner),
            Wanted::Tail(inode, at) => (None, 1, Some((inode, at))),
        };
        let place = match self {
            Wanted::Kept(first, _, _) => first,
            Wanted::Copied(_, _) | Wanted::Tail(_, _) => 0,
        };
        Piece {
            from,
            count,
            owner,
            place,
        }
    }
}

/// The first of these numbers whose piece is another one.
fn first_other(pieces: &Pieces, wanted: &[(usize, Wanted)]) -> Option<usize> {
    for (i, piece) in wanted {
        if *i >= pieces.len() || *pieces.get(*i) != piece.piece() {
            return Some(*i);
        }
    }
    None
}

/// What has to be found of a volume: pieces by their numbers, and what is counted.
#[derive(Clone, Copy)]
struct Case {
    sample: Sample,
    inline: bool,
    pieces: &'static [(usize, Wanted)],
    counts: Counts,
    /// The units that its conversion takes, where the test knows them.
    units: Option<(u64, u64)>,
}

const EMPTY_COUNTS: Counts = Counts {
    blocks: 2048,
    runs: 1,
    pieces: 52,
    piece_blocks: 52,
    copies: 52,
    tails: 0,
    objects: 1,
    names: 0,
    letters: 0,
    inlines: 0,
    inline_bytes: 0,
};

const EMPTY: Case = Case {
    sample: Sample::Empty,
    inline: true,
    pieces: &[(51, Wanted::Copied(51, None))],
    counts: EMPTY_COUNTS,
    units: Some((4, 1)),
};

const DIVIDED_COUNTS: Counts = Counts {
    blocks: 40003,
    runs: 6,
    pieces: 82,
    piece_blocks: 108,
    copies: 69,
    tails: 2,
    objects: 9,
    names: 8,
    letters: 18,
    inlines: 2,
    inline_bytes: 2061,
};

const DIVIDED: Case = Case {
    sample: Sample::Divided,
    inline: true,
    pieces: &[
        (0, Wanted::Kept(1000, 5, None)),
        (1, Wanted::Kept(2000, 3, Some((257, 0)))),
        (2, Wanted::Kept(2003, 2, Some((258, 0)))),
        (3, Wanted::Kept(2005, 1, Some((258, 3)))),
        (4, Wanted::Kept(3000, 1, Some((263, (1 << 32) - 1)))),
        (5, Wanted::Kept(3001, 1, Some((264, 0)))),
        (6, Wanted::Kept(16383, 1, Some((259, 0)))),
        (7, Wanted::Kept(16400, 1, Some((259, 3)))),
        (8, Wanted::Kept(32760, 8, None)),
        (9, Wanted::Kept(32768, 12, None)),
        (10, Wanted::Kept(39998, 2, None)),
        (11, Wanted::Copied(0, None)),
        (62, Wanted::Copied(51, None)),
        (63, Wanted::Copied(16384, Some((259, 1)))),
        (64, Wanted::Copied(16385, None)),
        (78, Wanted::Copied(16399, Some((259, 2)))),
        (79, Wanted::Copied(40001, None)),
        (80, Wanted::Tail(260, 3)),
        (81, Wanted::Tail(264, 1)),
    ],
    counts: DIVIDED_COUNTS,
    units: None,
};

/// The file of 2,048 bytes has a tail then.
const NOT_IN_THE_TREE: Case = Case {
    sample: Sample::Divided,
    inline: false,
    pieces: &[
        (80, Wanted::Tail(260, 3)),
        (81, Wanted::Tail(261, 0)),
        (82, Wanted::Tail(264, 1)),
    ],
    counts: Counts {
        pieces: 83,
        piece_blocks: 109,
        tails: 3,
        inlines: 1,
        inline_bytes: 13,
        ..DIVIDED_COUNTS
    },
    units: None,
};

const ONE_BYTE_TOO_LONG: Case = Case {
    sample: Sample::OneByteTooLong,
    inline: true,
    pieces: &[(52, Wanted::Tail(257, 0))],
    counts: Counts {
        pieces: 53,
        piece_blocks: 53,
        tails: 1,
        objects: 2,
        names: 1,
        letters: 1,
        ..EMPTY_COUNTS
    },
    units: None,
};

impl Case {
    /// What is found of the volume.
    fn found(&self, alloc: Global) -> Result<(Pieces, (u64, u64)), VolAnswer> {
        let mut disk = self.sample.disk(alloc)?;
        let volume = opened(alloc, &mut disk)?;
        found(alloc, &mut disk, &volume, self.inline)
    }

    /// Whether that is what has to be found.
    fn is_of(&self, pieces: &Pieces, units: (u64, u64)) -> bool {
        first_other(pieces, self.pieces).is_none()
            && pieces.counts() == self.counts
            && pieces.len() as u64 == self.counts.pieces
            && (self.units.is_none() || self.units == Some(units))
    }

    /// The same of what is found.
    fn is_right(&self, alloc: Global) -> Result<bool, VolAnswer> {
        let (pieces, units) = self.found(alloc)?;
        Ok(self.is_of(&pieces, units))
    }
}

/// How many cases are right, up to the first one that is not.
fn right(alloc: Global, cases: &[Case]) -> Result<usize, VolAnswer> {
    let mut count = 0usize;
    for case in cases {
        if !case.is_right(alloc)? {
            break;
        }
        count = count.saturating_add(1);
    }
    Ok(count)
}

const CASES: [Case; 4] = [EMPTY, DIVIDED, NOT_IN_THE_TREE, ONE_BYTE_TOO_LONG];

#[test]
fn used_blocks_are_divided(rt: HostRuntime) -> Result<(), VolAnswer> {
    assert_eq!(rt; right(rt.alloc(), &CASES)?, CASES.len());
    Ok(())
}

/// The pieces of a volume in their places, and the plan that gives them; None where there is none.
fn placed(alloc: Global, disk: &mut MemDisk) -> Result<Option<(Volume, Pieces, Plan)>, VolAnswer>
    requires { disk.old.opened ≡ None }
{
    disk.open("", Access::Read)?;
    let volume = Volume::open(alloc, disk)?;
    let options = Options::plain();
    let mut pieces = Pieces::find(alloc, disk, &volume, &options)?;
    let need = needed(&pieces.counts(), &options);
    match choose(alloc, volume.bitmap(), &need) {
        Ok(plan) => {
            pieces.place(&plan);
            Ok(Some((volume, pieces, plan)))
        }
        Err(_) => Ok(None),
    }
}

/// How many pieces have another place than they had; or the first one that does not lie behind the one before it, or has
/// another place and not the next block from this one on, or is a tail among the first so many of those or none behind them.
fn moved(pieces: &Pieces, first: u64, copies: u64) -> Result<u64, usize> {
    let mut end = 0;
    let mut moved = 0u64;
    for i in 0..pieces.len() {
        let piece = *pieces.get(i);
        let stays = piece.from == Some(piece.place);
        let is_next = piece.place == first.saturating_add(moved);
        let is_tail = piece.from.is_none();
        if piece.place < end || !stays && (!is_next || is_tail != (moved >= copies)) {
            return Err(i);
        }
        end = piece.place.saturating_add(piece.count);
        moved = moved.saturating_add(if stays { 0 } else { 1 });
    }
    Ok(moved)
}

/// How many pieces the volume with many kinds of files has, the units of its data, and how many pieces have moved into the
/// first of these, of which so many are copies.
fn moved_there(
    alloc: Global,
    copies: u64,
) -> Result<Option<(usize, usize, Result<u64, usize>)>, VolAnswer> {
    let mut disk = divided(alloc)?;
    let Some((_, pieces, plan)) = placed(alloc, &mut disk)? else {
        return Ok(None);
    };
    let units = plan.data_.len();
    if units == 0 {
        return Ok(None);
    }
    let first = plan.data_.get(0).saturating_mul(256);
    Ok(Some((pieces.len(), units, moved(&pieces, first, copies))))
}

/// Units 1 and 2 hold no data; unit 1 is the chunk tree's. Of the 71 pieces that move the first 69 are copies.
#[test]
fn pieces_get_places(rt: HostRuntime) -> Result<(), VolAnswer> {
    let told = moved_there(rt.alloc(), 69)?;
    assert_eq!(rt; told, Some((82, 1, Ok(71))));
    Ok(())
}
