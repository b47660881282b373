ghost use Rattle.std.specs.Prelude.{◌≡◌, ◌<◌, ◌+◌, ◌*◌, ◌^◌, ◌++◌, map, IfOk, OnOk};
ghost use Rattle.std.specs.List.{All, range_with_len};
ghost use Rattle.btr_tree.specs.btr_node.NodeSize.{IsNodeSize};
ghost use Rattle.unit_plan.specs.Places.{node_places};

use crate::Units;
use crate::need::nodes_in_unit;
use btr_tree::Slots;
use reiser_bitmap::Memory;
use std::alloc::Global;

/// The bytes of a unit.
const UNIT_SIZE: u64 = 1 << 20;

/// The addresses in bytes of the nodes that fill the units, one unit after the other.
pub fn slots_of(alloc: Global, units: &Units, nodesize: u32) -> Result<Slots, Memory>
    requires size { IsNodeSize nodesize }
    requires small { All (λ u. u < 2 ^ 43) units.now }
    ensures { IfOk result (λ slots. slots ≡ node_places nodesize units.now) }
{
    let in_unit = nodes_in_unit(nodesize);
    let mut slots = Slots::new(alloc);
    for i in 0..units.len() {
        add_unit(
            &mut slots,
            UNIT_SIZE * units.get(i),
            nodesize as u64,
            in_unit,
        )?;
    }
    Ok(slots)
}

/// Appends the addresses of so many nodes of this size, from a first one on.
fn add_unit(slots: &mut Slots, first: u64, size: u64, count: u64) -> Result<(), Memory>
    requires whole { count * size ≡ 2 ^ 20 }
    requires small { first < 2 ^ 63 }
    ensures { OnOk result (slots.new ≡ slots.old ++ map (λ k. first + size * k) (range_with_len 0 count)) }
{
    for k in 0..count {
        slots.add(first + size * k)?;
    }
    Ok(())
}
