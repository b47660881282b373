ghost use Rattle.std.specs.Prelude.{◌≡◌, ◌++◌, ◌∷◌, [], IfOk};

use sink_text::Memory;
use std::alloc::{AllocError, Global};
use std::marker::Model;
use std::rc::RcSlice;

/// Values in memory that may have several owners, as a list. A copy takes no memory, and the values go with the last owner.
#[derive(Drop, Debug)]
pub(crate) struct Shared<T> {
    /// None where there are no values, which take no memory.
    values: Option<RcSlice<T>>,
}

impl<T> Model for Shared<T> {
    ghost use Rattle.std.specs.Prelude.{List};
    ghost use Rattle.fs_rows.specs.Shared.{values_of};

    ghost Value = { List T };

    ghost view = { λ s. values_of s.values };
}

impl<T: Drop> Shared<T> {
    /// No values.
    pub fn empty() -> Shared<T>
        ensures { result ≡ [] }
    {
        Shared { values: None }
    }

    /// These values. Without memory there are none.
    pub fn new(values: Vec<T>) -> Result<Shared<T>, Memory>
        ensures { IfOk result (λ shared. shared ≡ values.items) }
    {
        if values.is_empty() {
            return Ok(Shared::empty());
        }
        Ok(Shared {
            values: Some(RcSlice::from_vec(values)?),
        })
    }

    /// The values, to go over.
    pub fn as_slice(&self) -> &[T]
        ensures { result.now ≡ self.now }
    {
        match &self.values {
            Some(values) => values.as_slice(),
            None => &[],
        }
    }
}

impl<T: Drop + Clone> Shared<T> {
    /// Clones of the values with one value more, in memory of their own. Without memory there are none.
    pub fn with(&self, alloc: Global, value: T) -> Result<Shared<T>, Memory>
        ensures { IfOk result (λ more. ((x y : T) → T.is_clone x y → y ≡ x) → more ≡ self.now ++ value ∷ []) }
    {
        let values = self.as_slice();
        let mut more = Vec::with_capacity(alloc, values.len().saturating_add(1))?;
        more.extend_with_clones(values)?;
        more.push(value)?;
        Shared::new(more)
    }
}

impl<T: Drop> Clone for Shared<T> {
    ghost is_clone = { λ shared copy. copy ≡ shared };

    /// The same values in the same memory.
    fn clone(&self) -> Result<Shared<T>, AllocError> {
        Ok(Shared {
            values: self.values.clone()?,
        })
    }
}
