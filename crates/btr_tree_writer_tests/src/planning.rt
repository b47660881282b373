ghost use Rattle.unit_plan.specs.Choice.{IsSmallNeed};

use convert_options::Options;
use outside::Memory;
use reiser_bitmap::{Bitmap, Run};
use std::alloc::Global;
use unit_plan::{
    Counts, Need, Piece, PieceList, Plan, PlanAnswer, PlannedChunk, Role, Units, choose, chunks_of,
    needed, plans_fit,
};

/// The counts of an empty volume of 12288 blocks with a journal of 8192: blocks 0 to 8211 are used.
const EMPTY_VOLUME: Counts = Counts {
    blocks: 12288,
    runs: 1,
    pieces: 257,
    piece_blocks: 8212,
    copies: 256,
    tails: 0,
    objects: 1,
    names: 0,
    letters: 0,
    inlines: 0,
    inline_bytes: 0,
};

/// The bitmap of a volume whose first `used` blocks are in use.
fn begun(alloc: Global, blocks: u64, used: u64) -> Result<Bitmap, Memory> {
    let mut map = Bitmap::new(alloc, blocks)?;
    for b in 0..used.min(map.len()) {
        if b < map.len() {
            map.insert(b);
        }
    }
    Ok(map)
}

#[test]
fn need_of_an_empty_volume(rt: HostRuntime) {
    let need = needed(&EMPTY_VOLUME, &Options::plain());
    assert!(rt; [need.system, need.metadata, need.data_, need.total()] == [1, 2, 1, 4]);
}

/// The plan for that volume in so many blocks.
fn chosen(alloc: Global, blocks: u64) -> Result<Plan, PlanAnswer> {
    let need = needed(&EMPTY_VOLUME, &Options::plain());
    let map = begun(alloc, blocks, 8212)?;
    choose(alloc, &map, &need)
}

#[test]
fn three_free_units_are_too_few(rt: HostRuntime) {
    let refused = PlanAnswer::NoSpace {
        needed: 4,
        free: 3,
        run_needed: 1,
        longest_run: 3,
    };
    assert!(rt; chosen(rt.alloc(), 9216).err() == Some(refused));
}

/// Whether a list has the units from one to before another.
fn is_range(list: &Units, first: u64, end: u64) -> bool {
    for i in 0..list.len() {
        if first.checked_add(i as u64) != Some(list.get(i)) {
            return false;
        }
    }
    first.checked_add(list.len() as u64) == Some(end)
}

/// Run `i` that stays unallocated, if there are so many.
fn unallocated(plan: &Plan, i: usize) -> Option<Run> {
    if i < plan.unallocated.len() {
        Some(plan.unallocated.get(i))
    } else {
        None
    }
}

/// Blocks of that volume, how many runs stay unallocated, and the first one. The smaller one has no unit to spare.
const SIZES: [(u64, usize, Option<Run>); 2] = [
    (
        12288,
        1,
        Some(Run {
            first: 37,
            count: 11,
        }),
    ),
    (9472, 0, None),
];

#[test]
fn units_are_chosen(rt: HostRuntime) -> Result<(), PlanAnswer> {
    for (blocks, count, first) in &SIZES {
        let plan = chosen(rt.alloc(), *blocks)?;
        let ranges = [
            is_range(&plan.system, 33, 34),
            is_range(&plan.metadata, 34, 36),
            is_range(&plan.data_, 36, 37),
        ];
        assert!(rt; ranges == [true; 3]);
        assert!(rt; (plan.unallocated.len(), unallocated(&plan, 0)) == (*count, *first));
    }
    Ok(())
}

/// The bitmap of a volume of so many units, where a block of each of these units is used.
fn with_used(alloc: Global, units: u64, used: &[u64]) -> Result<Bitmap, Memory> {
    let mut map = Bitmap::new(alloc, units.saturating_mul(256))?;
    for unit in used {
        let block = unit.saturating_mul(256);
        if block < map.len() {
            map.insert(block);
        }
    }
    Ok(map)
}

/// Units 1 to 3 are chosen, so 4 is the first one without use.
const THREE_UNITS: Need = Need {
    system: 1,
    metadata: 1,
    data_: 1,
};

/// The plan for a volume of so many units, a block of each of these units in use.
fn chosen_beside(alloc: Global, units: u64, used: &[u64]) -> Result<Plan, PlanAnswer> {
    let map = with_used(alloc, units, used)?;
    choose(alloc, &map, &THREE_UNITS)
}

/// Units of a volume, those of which a block is in use, how many runs stay unallocated, the number of one of them, its first unit
/// and its units.
const RUNS: [(u64, &[u64], usize, usize, u64, u64); 4] = [
    // The runs without use have 1101, 256, 255 and 255 units. The first one alone has 1024 units and a 64th of all.
    (1874, &[1105, 1362, 1618], 2, 0, 4, 1101),
    (1874, &[1105, 1362, 1618], 2, 1, 1106, 256),
    // Seven runs of 205 units: five have 1025 units, which is less than 1024 and a 64th of all 1435, and six have 1230.
    (1445, &[209, 415, 621, 827, 1033, 1239], 6, 5, 1034, 205),
    // 1009 units without use, in runs of 1, 2, 3, 4 and 999 units.
    (1017, &[5, 8, 12, 17], 5, 0, 4, 1),
];

#[test]
fn long_runs_and_lower_ones_stay_unallocated(rt: HostRuntime) -> Result<(), PlanAnswer> {
    for (units, used, runs, i, first, count) in &RUNS {
        let plan = chosen_beside(rt.alloc(), *units, *used)?;
        let (first, count) = (*first, *count);
        let wanted = (*runs, Some(Run { first, count }));
        assert!(rt; (plan.unallocated.len(), unallocated(&plan, *i)) == wanted);
    }
    Ok(())
}

/// A list of one piece.
#[derive(Drop)]
struct OnePiece {
    piece: Piece,
}

impl PieceList for OnePiece {
    ghost use Rattle.std.specs.Prelude.{[], ◌∷◌};

    ghost pieces = { λ list. list.piece ∷ [] };

    fn len(&self) -> usize {
        1
    }

    fn get(&self, i: usize) -> &Piece {
        &self.piece
    }
}

fn blocks_of<L: PieceList>(list: &L) -> u64 {
    let mut blocks: u64 = 0;
    for i in 0..list.len() {
        blocks = blocks.saturating_add(list.get(i).count);
    }
    blocks
}

#[test]
fn pieces_in_a_list(rt: HostRuntime) {
    let list = OnePiece {
        piece: Piece {
            from: Some(256),
            count: 7956,
            owner: None,
            place: 256,
        },
    };
    assert_eq!(rt; blocks_of(&list), 7956);
}

/// How many chunks the plan for a volume has, and the last one.
fn chunks(
    alloc: Global,
    map: &Bitmap,
    need: &Need,
) -> Result<(usize, Option<PlannedChunk>), PlanAnswer>
    requires need { IsSmallNeed need.now }
{
    plans_fit();
    let plan = choose(alloc, map, need)?;
    if map.len() >= 1 << 60 {
        return Ok((0, None));
    }
    let chunks = chunks_of(alloc, &plan, map.len())?;
    let last = match chunks.len().checked_sub(1) {
        Some(i) => Some(chunks.get(i)),
        None => None,
    };
    Ok((chunks.len(), last))
}

// Units 1 to 32 hold data, 33 is for the chunk tree, 34 and 35 for the other trees, and 36 for copies.
#[test]
fn chunks_of_an_empty_volume(rt: HostRuntime) -> Result<(), PlanAnswer> {
    let last = PlannedChunk {
        start: 9216,
        length: 256,
        role: Role::Data,
    };
    let need = needed(&EMPTY_VOLUME, &Options::plain());
    let map = begun(rt.alloc(), 12288, 8212)?;
    assert!(rt; chunks(rt.alloc(), &map, &need)? == (4, Some(last)));
    Ok(())
}
