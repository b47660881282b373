// What file extents use, as it is gathered.
ghost use Rattle.std.specs.Prelude.{◌≡◌, ◌+◌, ◌==◌, ℕ, Bool, not, false, ◌&&◌, ◌||◌, is_some, OnOk, IfOk};
ghost use Rattle.number_runs.specs.Runs.{is_among, is_in};
ghost use Rattle.btr_check_sums.specs.Blocks.{has_block};
ghost use Rattle.btr_check_sums.specs.Uses.{AddsUse, AreUsesOf, disk_span, has_sums, is_laid_in, is_laid_out, lacks_sums, read_span, wants_none, wants_sums};

use crate::blocks::blocks_in;
use crate::use_of_data::{DataOf, LaidOut, UsedBlocks, Uses};
use btr_check_rules::btr_reader::btr_reader_walk::DiskRange;
use number_runs::{Gathered, Memory, Run, Runs};
use std::alloc::Global;

impl DataOf {
    /// The blocks of its disk extent.
    fn disk_blocks(&self) -> Run
        ensures { (n : ℕ) → is_in result n ≡ has_block (disk_span self.now) n }
    {
        blocks_in(self.range.disk_bytenr as u128, self.range.disk_num_bytes)
    }

    /// The blocks that are read for it: of a compressed one those of the whole disk extent.
    fn read_blocks(&self) -> Run
        ensures { (n : ℕ) → is_in result n ≡ has_block (read_span self.now) n }
    {
        if self.compression == 0 {
            let start = self.range.disk_bytenr as u128 + self.range.offset as u128;
            blocks_in(start, self.range.num_bytes)
        } else {
            self.disk_blocks()
        }
    }

    /// Whether it is read and needs checksums.
    fn wants_sums(&self) -> bool
        ensures { result ≡ wants_sums self.now }
    {
        self.is_read && self.written && has_sums(self.sums)
    }

    /// Whether it is read and may have no checksums.
    fn wants_none(&self) -> bool
        ensures { result ≡ wants_none self.now }
    {
        self.is_read && self.written && lacks_sums(self.sums)
    }

    /// Whether it is read, and only laid out.
    fn is_laid_out(&self) -> bool
        ensures { result ≡ is_laid_out self.now }
    {
        self.is_read && !self.written && self.sums.is_some()
    }

    /// Where its disk extent begins, as a set of one number.
    fn place(&self) -> Run
        ensures { (s : ℕ) → is_in result s ≡ (self.now.range.disk_bytenr == s) }
    {
        Run {
            first: self.range.disk_bytenr,
            last: self.range.disk_bytenr,
        }
    }
}

/// Whether an inode is there whose data has checksums.
fn has_sums(sums: Option<bool>) -> bool
    ensures { result ≡ has_sums sums }
{
    match sums {
        Some(sums) => sums,
        None => false,
    }
}

/// Whether an inode is there whose data has no checksums.
fn lacks_sums(sums: Option<bool>) -> bool
    ensures { result ≡ lacks_sums sums }
{
    match sums {
        Some(sums) => !sums,
        None => false,
    }
}

/// Adds some numbers where a test is true.
fn add_if(set: &mut Gathered, test: bool, run: Run) -> Result<(), Memory>
    ensures { OnOk result ((n : ℕ) → is_among set.new n ≡ ((test && is_in run n) || is_among set.old n)) }
{
    if !test {
        return Ok(());
    }
    set.add(run)
}

/// Notes what is laid out in the disk extent at an address, where a test is true.
fn lay_if(laid: &mut Vec<LaidOut>, test: bool, extent: u64, blocks: Run) -> Result<(), Memory>
    ensures { OnOk result ((by : ℕ → Bool) (n : ℕ) → is_laid_in by laid.new.items n ≡ (is_laid_in by laid.old.items n || (by extent && (test && is_in blocks n)))) }
{
    if !test {
        return Ok(());
    }
    laid.push(LaidOut { extent, blocks })?;
    Ok(())
}

/// Adds what is laid out in disk extents to which nothing was written.
fn add_laid(bare: &mut Gathered, written: &Runs, laid: &[LaidOut]) -> Result<(), Memory>
    ensures { OnOk result ((n : ℕ) → is_among bare.new n ≡ (is_among bare.old n || is_laid_in (λ s. not (is_among written.now s)) laid.now n)) }
{
    for l in laid {
        add_if(bare, !written.has(l.extent), l.blocks)?;
    }
    Ok(())
}

impl Uses {
    /// Nothing is used.
    pub fn new(alloc: Global) -> Uses
        ensures data { (n : ℕ) → is_among result.data n ≡ false }
        ensures wanted { (n : ℕ) → is_among result.wanted n ≡ false }
        ensures bare { (n : ℕ) → is_among result.bare n ≡ false }
        ensures written { (s : ℕ) → is_among result.written s ≡ false }
        ensures laid { (test : ℕ → Bool) (n : ℕ) → is_laid_in test result.laid.items n ≡ false }
    {
        Uses {
            data: Gathered::new(alloc),
            wanted: Gathered::new(alloc),
            bare: Gathered::new(alloc),
            written: Gathered::new(alloc),
            laid: Vec::new(alloc),
        }
    }

    /// Notes a file extent of a tree of files that has a place on the disk.
    pub fn add(&mut self, x: &DataOf) -> Result<(), Memory>
        ensures { OnOk result (AddsUse x.now self.old self.new) }
    {
        let read = x.read_blocks();
        self.data.add(x.disk_blocks())?;
        add_if(&mut self.wanted, x.wants_sums(), read)?;
        add_if(&mut self.bare, x.wants_none(), read)?;
        add_if(&mut self.written, x.written, x.place())?;
        lay_if(&mut self.laid, x.is_laid_out(), x.range.disk_bytenr, read)
    }

    /// Notes the disk extent of a file extent of another tree, where its content is no data of files.
    pub fn add_extent(&mut self, range: &DiskRange) -> Result<(), Memory>
        ensures data { OnOk result ((n : ℕ) → is_among self.new.data n ≡ (has_block (record { start = range.now.disk_bytenr; length = range.now.disk_num_bytes }) n || is_among self.old.data n)) }
        ensures wanted { self.new.wanted ≡ self.old.wanted }
        ensures bare { self.new.bare ≡ self.old.bare }
        ensures written { self.new.written ≡ self.old.written }
        ensures laid { self.new.laid ≡ self.old.laid }
    {
        self.data
            .add(blocks_in(range.disk_bytenr as u128, range.disk_num_bytes))
    }

    /// The sets of blocks, when all was noted.
    pub fn finish(self) -> Result<UsedBlocks, Memory>
        ensures { IfOk result (AreUsesOf self) }
    {
        let Uses {
            data,
            wanted,
            mut bare,
            written,
            laid,
        } = self;
        add_laid(&mut bare, &written.into_runs(), &laid)?;
        Ok(UsedBlocks {
            data: data.into_runs(),
            wanted: wanted.into_runs(),
            bare: bare.into_runs(),
        })
    }
}
