ghost use Rattle.std.specs.Prelude.{◌≡◌, ◌<◌, ◌≤◌, ◌==◌, ◌-◌, ◌++◌, ◌∷◌, [], length, drop, slice_get, slice_set, Some, OnOk, OnErr};

use crate::Memory;
use std::alloc::Global;
use std::marker::Model;

/// Values that are copied, as a list.
#[derive(Drop)]
pub struct CopyList<T> {
    items: Vec<T>,
}

impl<T> Model for CopyList<T> {
    ghost use Rattle.std.specs.Prelude.{List};

    ghost Value = { List T };

    ghost view = { λ l. l.items.items };
}

impl<T: Copy> CopyList<T> {
    /// A list of nothing.
    pub fn new(alloc: Global) -> CopyList<T>
        ensures { result ≡ [] }
    {
        CopyList {
            items: Vec::new(alloc),
        }
    }

    /// Appends a value. Without memory the list is unchanged.
    pub fn add(&mut self, item: T) -> Result<(), Memory>
        ensures ok { OnOk result (self.new ≡ self.old ++ item ∷ []) }
        ensures err { OnErr result (self.new ≡ self.old) }
    {
        self.items.push(item)?;
        Ok(())
    }

    /// How many values there are.
    pub fn len(&self) -> usize
        ensures { result ≡ length self.now }
    {
        self.items.len()
    }

    /// Whether there is no value.
    pub fn is_empty(&self) -> bool
        ensures { result ≡ (length self.now == 0) }
    {
        self.items.is_empty()
    }

    /// Value number `i`, counted from 0.
    pub fn get(&self, i: usize) -> T
        requires { i < length self.now }
        ensures { slice_get self.now i ≡ Some result }
    {
        self.items[i]
    }

    /// The values, to go over.
    pub fn as_slice(&self) -> &[T]
        ensures { result.now ≡ self.now }
    {
        &self.items
    }

    /// Puts another value in place of number `i`.
    pub fn set(&mut self, i: usize, item: T)
        requires { i < length self.old }
        ensures { self.new ≡ slice_set self.old i item }
    {
        self.items[i] = item;
    }

    /// The values behind the first `n`.
    pub fn without_first(mut self, n: usize) -> CopyList<T>
        requires { n ≤ length self }
        ensures { result ≡ drop n self }
    {
        let left = self.items.len() - n;
        self.items.rotate_left(n);
        self.items.truncate(left);
        self
    }
}
