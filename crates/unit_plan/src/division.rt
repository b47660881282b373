ghost use Rattle.std.specs.Prelude.{◌≡◌, ◌≤◌, ◌<◌, ◌+◌, ◌*◌, ◌/◌, ◌^◌, ◌↔◌, ℕ, IfOk, OnOk, IsTrue};
ghost use Rattle.unit_plan.specs.Chunks.{AreChunks, AreChunksBy, FitsVolume};
ghost use Rattle.unit_plan.specs.Dividing.{AreBegun, IsJoined, IsWithChunk};
ghost use Rattle.unit_plan.specs.Roles.{role_in};

use crate::Plan;
use crate::chunk::{Chunks, PlannedChunk};
use crate::roles::Roles;
use reiser_bitmap::Memory;
use std::alloc::Global;

/// The blocks of a unit.
const BLOCKS_IN_UNIT: u64 = 256;

/// A chunk ends at each multiple of so many units.
const LONGEST: u64 = 1024;

/// The chunks that a plan makes of a volume of so many blocks: the maximal runs of units of one role, cut at multiples of
/// 1024 units and to the usable blocks, ascending.
pub fn chunks_of(alloc: Global, plan: &Plan, blocks: u64) -> Result<Chunks, Memory>
    requires small { blocks < 2 ^ 60 }
    requires units { FitsVolume plan.now blocks }
    ensures { IfOk result (AreChunks plan.now blocks) }
{
    let roles = Roles::new(alloc, plan, blocks)?;
    divide(alloc, &roles, 16 * (blocks / 16))
}

/// The chunks of the units that these sets tell, where usable blocks end at `usable`.
fn divide(alloc: Global, roles: &Roles, usable: u64) -> Result<Chunks, Memory>
    requires small { usable < 2 ^ 60 }
    requires usable { usable ≡ roles.now.usable }
    ensures { IfOk result (AreChunksBy (role_in roles.now) usable) }
{
    let mut chunks = Chunks::new(alloc);
    let mut first = 0;
    for u in 1..usable.div_ceil(BLOCKS_IN_UNIT) + 1 {
        if is_joined(roles, u) {
            continue;
        }
        add_chunk(&mut chunks, roles, first, u, usable)?;
        first = u;
    }
    Ok(chunks)
}

/// Whether the unit lies in one chunk with the unit before it.
fn is_joined(roles: &Roles, u: u64) -> bool
    requires low { 1 ≤ u }
    requires high { u < 2 ^ 56 }
    ensures { IsTrue result ↔ IsJoined (role_in roles.now) u }
{
    let before = roles.role(u - 1);
    u % LONGEST != 0 && before.is_some() && before == roles.role(u)
}

/// Appends the units from `first` to before `end` as a chunk, if they have a role.
fn add_chunk(
    chunks: &mut Chunks,
    roles: &Roles,
    first: u64,
    end: u64,
    usable: u64,
) -> Result<(), Memory>
    requires small { usable < 2 ^ 60 }
    requires usable { usable ≡ roles.now.usable }
    requires some { first < end }
    requires high { end < 2 ^ 56 }
    ensures { OnOk result (IsWithChunk chunks.old (role_in roles.now first) first end usable chunks.new) }
{
    let Some(role) = roles.role(first) else {
        return Ok(());
    };
    let start = BLOCKS_IN_UNIT * first;
    chunks.add(PlannedChunk {
        start,
        length: usable.min(BLOCKS_IN_UNIT * end) - start,
        role,
    })
}
