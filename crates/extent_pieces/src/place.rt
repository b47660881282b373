ghost use Rattle.std.specs.Prelude.{◌≡◌, ◌≤◌, ◌<◌, ◌*◌, ◌^◌, length, slice_get, All, Some};
ghost use Rattle.extent_pieces.specs.Placed.{WerePlaced, FitsPlan, blocks_of_units};

use crate::Pieces;
use reiser_bitmap::BlockNo;
use unit_plan::{Plan, Units};

/// How many blocks a unit of 1 MiB has.
const BLOCKS_IN_UNIT: usize = 256;

impl Pieces {
    /// Gives copies and tails the blocks of the plan's data units, in ascending order, and sorts all pieces by their
    /// places. It takes no memory. It is called once.
    pub fn place(&mut self, plan: &Plan)
        requires { FitsPlan self.old plan.now.data_ }
        ensures placed { WerePlaced self.old.kept plan.now.data_ self.old.items.items self.new.items.items }
        ensures counts { self.new.counts ≡ self.old.counts }
    {
        for i in self.kept..self.items.len() {
            self.items[i].place = data_block(&plan.data_, i - self.kept);
        }
        self.items.sort_unstable_by_key(|piece| piece.place);
    }
}

/// Block number `i` of those in the units.
fn data_block(units: &Units, i: usize) -> BlockNo
    requires inside { i < 256 * length units.now }
    requires small { All (λ u. u < 2 ^ 50) units.now }
    ensures { slice_get (blocks_of_units units.now) i ≡ Some result }
{
    let unit = units.get(i / BLOCKS_IN_UNIT);
    BLOCKS_IN_UNIT as u64 * unit + (i % BLOCKS_IN_UNIT) as u64
}
