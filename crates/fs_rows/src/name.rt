ghost use Rattle.std.specs.Prelude.{◌≡◌, IfOk, nat_eq};
ghost use Rattle.std.specs.Cmp as Cmp;
ghost use Rattle.std.specs.Cmp.Lexicographic.{pointwise, nat_list_eq_equiv};

use crate::shared::Shared;
use sink_text::Memory;
use std::alloc::{AllocError, Global};
use std::marker::Model;

/// A name of a directory's entry, or the target of a symlink: bytes of no character set. A contract sees the bytes.
///
/// A clone shares the bytes and takes no memory.
#[derive(Drop, Debug)]
pub struct Name {
    bytes: Shared<u8>,
}

impl Model for Name {
    ghost use Rattle.std.specs.Prelude.{ℕ, List};

    ghost Value = { List ℕ };

    ghost view = { λ n. n.bytes };
}

impl Name {
    /// The name of these bytes, which are copied. Without memory there is none.
    pub fn new(alloc: Global, bytes: &[u8]) -> Result<Name, Memory>
        ensures { IfOk result (λ name. name ≡ bytes.now) }
    {
        Ok(Name {
            bytes: Shared::new(Vec::from_slice(alloc, bytes)?)?,
        })
    }

    /// The bytes of the name.
    pub fn bytes(&self) -> &[u8]
        ensures { result.now ≡ self.now }
    {
        self.bytes.as_slice()
    }
}

impl Clone for Name {
    ghost is_clone = { λ name copy. copy ≡ name };

    fn clone(&self) -> Result<Name, AllocError> {
        Ok(Name {
            bytes: self.bytes.clone()?,
        })
    }
}

impl PartialEq for Name {
    ghost eq = { λ x y. pointwise nat_eq x y };

    ghost laws = { Cmp.partial_equiv_from_equiv nat_list_eq_equiv };

    /// Whether the bytes are the same.
    fn eq(&self, other: &Self) -> bool {
        self.bytes() == other.bytes()
    }
}
