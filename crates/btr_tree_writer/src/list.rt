ghost use Rattle.std.specs.Prelude.{◌≡◌, ◌≤◌, length};

use crate::source::ItemSource;
use btr_item_list::ItemList;
use btr_tree::{BlockSource, Key, VolAnswer};

/// The items of a list, one after the other.
#[derive(Drop)]
pub struct ListItems<'a> {
    list: &'a ItemList,
    given: usize,
    ghost within: { given ≤ length list.now },
}

impl<'a> ListItems<'a> {
    /// All items of the list.
    pub fn new(list: &'a ItemList) -> ListItems<'a>
        ensures all { result.list.now ≡ list.now }
        ensures none_given { result.given ≡ 0 }
    {
        ListItems { list, given: 0 }
    }
}

impl<'a> ItemSource for ListItems<'a> {
    ghost use Rattle.std.specs.Prelude.{◌≡◌, ◌<◌, ℕ, ◌+◌, drop, slice_get, Some, refl};

    ghost ahead = { λ s image. drop s.given s.list.now };

    ghost fits = { λ s image. Unit {0} };

    ghost needs = { λ s b. ⊥ };

    ghost is_live = { λ s. Unit {0} };

    ghost reach = { λ s. 0 };

    ghost stands = { λ s item. (n : ℕ) × (s.given ≡ n + 1) × (slice_get s.list.now n ≡ Some item) };

    ghost has_item = { λ s. 0 < s.given };

    fn advance<S: BlockSource>(&mut self, _src: &mut S) -> Result<bool, VolAnswer> {
        if self.given == self.list.len() {
            return Ok(false);
        }
        self.given += 1;
        Ok(true)
    }

    fn key(&self) -> Key {
        self.list.key(self.given - 1)
    }

    fn body(&self) -> &[u8] {
        self.list.body(self.given - 1)
    }

    ghost stays = { λ s image other same fits. (fits, refl) };
}
