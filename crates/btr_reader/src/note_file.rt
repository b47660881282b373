// What is noted of a file as the items of its tree go by.
ghost use Rattle.std.specs.Prelude.{◌≡◌, []};
ghost use Rattle.btr_reader.specs.FileNotes.{HoldsFile};

use crate::file_notes::FileNotes;
use crate::gather::{gather_item, nothing};
use crate::inodes::seek_inode;
use btr_reader_walk::{Key, MapRange, Memory, Notes};
use std::alloc::Global;

impl<'a> FileNotes<'a> {
    /// Nothing so far, of the file with this number.
    pub fn new(alloc: Global, ranges: &'a [MapRange], number: u64) -> FileNotes<'a>
        ensures ranges { result.ranges.now ≡ ranges.now }
        ensures number { result.number ≡ number }
        ensures begun { HoldsFile result [] }
    {
        FileNotes {
            ranges,
            number,
            item: None,
            gathered: nothing(alloc),
            refusal: None,
        }
    }
}

impl Notes for FileNotes<'_> {
    ghost use Rattle.std.specs.Prelude.{◌≡◌};
    ghost use Rattle.btr_reader.specs.FileNotes.{HoldsFile};

    ghost holds = { λ begun noted items. (noted.number ≡ begun.number) × (noted.ranges.now ≡ begun.ranges.now) × HoldsFile noted items };

    /// Notes one more item. Behind an extent with which something is wrong none is gathered.
    fn note(&mut self, _: Global, key: &Key, body: &[u8], leaf: u64) -> Result<(), Memory> {
        self.item = seek_inode(self.item, self.number, key, body, leaf);
        if self.refusal.is_none() {
            self.refusal = gather_item(
                &mut self.gathered,
                self.ranges,
                self.number,
                key,
                body,
                leaf,
            )?;
        }
        Ok(())
    }
}
