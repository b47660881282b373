ghost use Rattle.std.specs.Prelude.{◌≡◌, ◌<◌, ◌==◌, ◌++◌, ◌∷◌, [], length, slice_get, Some, IfOk, OnOk, OnErr, nat_eq};
ghost use Rattle.std.specs.Cmp as Cmp;
ghost use Rattle.std.specs.Cmp.Lexicographic.{pointwise, lists_per, nat_list_eq_equiv};

use crate::Name;
use crate::shared::Shared;
use sink_text::Memory;
use std::alloc::{AllocError, Global};
use std::marker::Model;

/// How many names a part of a path has.
const PART: usize = 64;

/// How many parts a path may have.
const PARTS: usize = 1 << 32;

/// The names on the way from the root to an object; none for the root. A contract sees the list of the names.
///
/// A clone takes no memory. A path that was made of another one by [`Path::joined`] shares with it the bytes of its names, and the
/// list of them but for fewer than 64, so that even the paths of a very deep tree take little memory each.
#[derive(Drop, Debug)]
pub struct Path {
    /// What gives the memory for names that are added.
    alloc: Global,
    /// The first names, in parts of 64.
    parts: Shared<Shared<Name>>,
    /// The names behind these, fewer than 64.
    rest: Shared<Name>,
}

impl Model for Path {
    ghost use Rattle.std.specs.Prelude.{ℕ, List};
    ghost use Rattle.fs_rows.specs.Parts.{IsCut, joined_parts};

    ghost Value = { List (List ℕ) };

    ghost view = { λ p. joined_parts p.parts p.rest };

    ghost invariant = { λ p. IsCut p.parts p.rest };
}

impl Path {
    /// The root.
    pub fn new(alloc: Global) -> Path
        ensures { result ≡ [] }
    {
        Path {
            alloc,
            parts: Shared::empty(),
            rest: Shared::empty(),
        }
    }

    /// Appends a name. Without memory the path is unchanged.
    pub fn add(&mut self, name: Name) -> Result<(), Memory>
        ensures ok { OnOk result (self.new ≡ self.old ++ name ∷ []) }
        ensures err { OnErr result (self.new ≡ self.old) }
    {
        *self = self.with(name)?;
        Ok(())
    }

    /// The path with one name more, beside this one. Without memory there is none.
    pub fn joined(&self, name: &Name) -> Result<Path, Memory>
        ensures { IfOk result (λ joined. joined ≡ self.now ++ name.now ∷ []) }
    {
        self.with(name.clone()?)
    }

    /// A path of these names and one more, which shares its memory with this one.
    fn with(&self, name: Name) -> Result<Path, Memory>
        ensures { IfOk result (λ longer. longer ≡ self.now ++ name ∷ []) }
    {
        let rest = self.rest.with(self.alloc, name)?;
        if rest.as_slice().len() < PART {
            return Ok(Path {
                alloc: self.alloc,
                parts: self.parts.clone()?,
                rest,
            });
        }
        if self.parts.as_slice().len() >= PARTS {
            return Err(Memory);
        }
        Ok(Path {
            alloc: self.alloc,
            parts: self.parts.with(self.alloc, rest)?,
            rest: Shared::empty(),
        })
    }

    /// How many names there are.
    pub fn len(&self) -> usize
        ensures { result ≡ length self.now }
    {
        self.parts.as_slice().len() * PART + self.rest.as_slice().len()
    }

    /// Whether it is the root.
    pub fn is_empty(&self) -> bool
        ensures { result ≡ (length self.now == 0) }
    {
        self.len() == 0
    }

    /// Name number `i`, counted from 0.
    pub fn get(&self, i: usize) -> &Name
        requires { i < length self.now }
        ensures { slice_get self.now i ≡ Some result.now }
    {
        let parts = self.parts.as_slice();
        if i / PART < parts.len() {
            return &parts[i / PART].as_slice()[i % PART];
        }
        &self.rest.as_slice()[i - parts.len() * PART]
    }
}

impl Clone for Path {
    ghost is_clone = { λ path copy. copy ≡ path };

    fn clone(&self) -> Result<Path, AllocError> {
        Ok(Path {
            alloc: self.alloc,
            parts: self.parts.clone()?,
            rest: self.rest.clone()?,
        })
    }
}

impl PartialEq for Path {
    ghost eq = { λ x y. pointwise (pointwise nat_eq) x y };

    ghost laws = { lists_per (Cmp.partial_equiv_from_equiv nat_list_eq_equiv) };

    /// Whether the names are the same.
    fn eq(&self, other: &Self) -> bool {
        if self.len() != other.len() {
            return false;
        }
        for i in 0..self.len() {
            if self.get(i) != other.get(i) {
                return false;
            }
        }
        true
    }
}
