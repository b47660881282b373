ghost use Rattle.std.specs.Prelude.{◌≡◌, ◌<◌, length, Some, slice_get};
ghost use Rattle.reiser_items.specs.Pointers.{pointers_of};

use reiser_node::u32_at;
use std::marker::Model;

/// The pointers of a file's part: the body of an indirect item.
#[derive(Debug, Drop)]
pub struct Pointers<'a> {
    body: &'a [u8],
}

impl<'a> Model for Pointers<'a> {
    ghost use Rattle.std.specs.Prelude.{◌≡◌, ℕ, ◌%◌, List, length};
    ghost use Rattle.reiser_items.specs.Pointers.{pointers};

    ghost Value = { List ℕ };

    ghost view = { λ v. pointers v.body.now };

    ghost invariant = { λ v. length v.body.now % 4 ≡ 0 };
}

impl<'a> Pointers<'a> {
    /// The pointers of a body; None exactly where its length is no multiple of 4.
    pub fn read(body: &'a [u8]) -> Option<Pointers<'a>>
        ensures { result ≡ pointers_of body.now }
    {
        if body.len() % 4 == 0 {
            Some(Pointers { body })
        } else {
            None
        }
    }

    /// How many pointers there are.
    #[tactic(auto, using(crate::proofs::Lists::pointers_length))]
    pub fn len(&self) -> usize
        ensures { result ≡ length self.now }
    {
        self.body.len() / 4
    }

    /// Pointer `i`: the number of the block that holds the 4096 bytes `i` of the part, or 0 for a hole. It may lie past
    /// the end of the volume.
    #[tactic(auto, using(crate::proofs::Lists::pointer_within, crate::proofs::Lists::pointer_at))]
    pub fn get(&self, i: usize) -> u32
        requires { i < length self.now }
        ensures { slice_get self.now i ≡ Some result }
    {
        u32_at(self.body, 4 * i)
    }
}
