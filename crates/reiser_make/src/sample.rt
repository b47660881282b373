ghost use Rattle.std.specs.Prelude.{◌≡◌, ◌≤◌, ◌<◌, ◌+◌, ◌*◌, length, slice_index_or, IfOk};
ghost use Rattle.reiser_make.specs.Content.{IsSmallContent};
ghost use Rattle.reiser_make.specs.Shape.{shape, stored_blocks, stored_of, stored_before, stored_in};
ghost use Rattle.reiser_make.specs.declared.sample_entry.SampleEntry.TheVariants.{Name};

use crate::draw::Draws;
use crate::sample_entry::SampleEntry;
use fs_rows::Memory;
use std::alloc::Global;
use std::marker::Model;

/// What a name stands for, and how many data blocks lie before those of this name.
#[derive(Clone, Copy, Debug)]
pub struct Named {
    content: SampleEntry,
    first: u32,
}

/// What a sample holds, by its names: one entry for each, of at most 4000.
#[derive(Drop)]
pub struct Sample {
    old: bool,
    names: Vec<Named>,
    stored: u32,
}

impl Model for Sample {
    ghost use Rattle.reiser_make.specs.Shape.{Shape};
    ghost use Rattle.reiser_make.specs.Sample.{shape_of, HoldsSample};

    ghost Value = { Shape };

    ghost view = { λ a. shape_of a.old a.names.items };

    ghost invariant = { λ a. HoldsSample a.names.items a.stored };
}

impl Sample {
    /// The sample of a number; its items have version 0 if it is old.
    pub fn new(alloc: Global, number: u32, old: bool) -> Result<Sample, Memory>
        requires { number ≤ 4000 }
        ensures { IfOk result (λ sample. sample ≡ shape number old) }
    {
        let mut names = Vec::new(alloc);
        let mut draws = Draws::new(number);
        let mut stored = 0;
        for i in 0..number {
            let content = SampleEntry::draw(i, &mut draws);
            names.push(Named {
                content,
                first: stored,
            })?;
            stored += stored_blocks(content);
        }
        Ok(Sample { old, names, stored })
    }

    /// Whether items have version 0.
    pub fn is_old(&self) -> bool
        ensures { result ≡ self.now.old }
    {
        self.old
    }

    /// How many names there are.
    pub fn number(&self) -> u32
        ensures number { result ≡ length self.now.names }
        ensures most { result ≤ 4000 }
    {
        self.names.len() as u32
    }

    /// What name `i` stands for.
    pub fn content(&self, i: u32) -> SampleEntry
        requires { i < length self.now.names }
        ensures content { result ≡ slice_index_or self.now.names i Name }
        ensures small { IsSmallContent result }
    {
        self.names[i as usize].content
    }

    /// How many data blocks lie before those of name `i`.
    pub fn first(&self, i: u32) -> u32
        requires { i < length self.now.names }
        ensures first { result ≡ stored_before self.now.names i }
        ensures most { result ≤ 20 * 4000 }
    {
        self.names[i as usize].first
    }

    /// How many data blocks there are.
    pub fn stored(&self) -> u32
        ensures stored { result ≡ stored_in self.now.names }
        ensures most { result ≤ 20 * 4000 }
    {
        self.stored
    }
}

/// How many whole blocks of a file are no holes.
pub fn stored_blocks(content: SampleEntry) -> u32
    requires { IsSmallContent content }
    ensures stored { result ≡ stored_blocks content }
    ensures most { result ≤ 20 }
{
    match content {
        SampleEntry::File { whole, sparse, .. } => stored_of(whole, sparse) as u32,
        _ => 0,
    }
}

/// How many of so many whole blocks of a file are no holes.
pub fn stored_of(whole: u16, sparse: bool) -> u16
    ensures stored { result ≡ stored_of whole sparse }
    ensures most { result ≤ whole }
{
    if sparse { whole.div_ceil(2) } else { whole }
}
