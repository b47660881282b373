ghost use Rattle.std.specs.Prelude.{◌≡◌, ◌<◌, length, slice_get, Some, IfOk, filter};
ghost use Rattle.btr_item_list.specs.Groups.{ascending};
ghost use Rattle.btr_item_list.specs.Spots.{is_under};

use crate::spot::Spot;
use crate::under::under;
use btr_node::Memory;
use std::marker::Model;

/// Numbers of things by what they stand under. Those under one number stand together, in the order in which they were given.
#[derive(Drop)]
pub struct Spots {
    items: Vec<Spot>,
}

impl Model for Spots {
    ghost use Rattle.std.specs.Prelude.{List};
    ghost use Rattle.btr_item_list.specs.Spots.{AscendByObject};
    ghost use Rattle.btr_item_list.specs.declared.spot.Spot.{Spot as SpotOf};

    ghost Value = { List SpotOf };

    ghost view = { λ s. s.items.items };

    ghost invariant = { λ s. AscendByObject s.items.items };
}

impl Spots {
    /// These, by what they stand under.
    pub fn sorted(spots: Vec<Spot>) -> Result<Spots, Memory>
        ensures { IfOk result (λ sorted. sorted ≡ ascending (λ spot. spot.of) spots.items) }
    {
        let mut items = spots;
        items.sort_by_key(|spot| spot.of)?;
        Ok(Spots { items })
    }

    /// How many there are.
    pub fn len(&self) -> usize
        ensures { result ≡ length self.now }
    {
        self.items.len()
    }

    /// That of this place.
    pub fn get(&self, i: usize) -> Spot
        requires { i < length self.now }
        ensures { slice_get self.now i ≡ Some result }
    {
        self.items[i]
    }

    /// Those under a number, in their order.
    pub fn under(&self, of: u64) -> &[Spot]
        ensures { result.now ≡ filter (is_under of) self.now }
    {
        under(&self.items, of)
    }
}
