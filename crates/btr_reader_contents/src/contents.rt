ghost use Rattle.std.specs.Prelude.{◌≡◌, ◌≤◌, true, ℕ, Option, Some, List, IfOk};
ghost use Rattle.btr_reader_walk.specs.outside.History.{Image};
ghost use Rattle.btr_reader_walk.specs.declared.map.MapRange.{MapRange as RangeOf};
ghost use Rattle.btr_reader_walk.specs.Events.{TreeItem};
ghost use Rattle.btr_reader_contents.specs.Contents.{HasContents, content_in, known_content};
ghost use Rattle.btr_reader_contents.specs.declared.wanted.Wanted.{Wanted as WantedOf};

use crate::hand::Hand;
use crate::wanted::Wanted;
use btr_reader_walk::Memory;
use fs_rows::Content;
use indexmap::IndexMap;
use std::alloc::Global;

/// The contents of the files and symlinks of a tree that have extents.
#[derive(Drop)]
pub struct Contents {
    pub(crate) known: IndexMap<u64, Content>,
}

impl Contents {
    /// The content of a file or symlink whose inode has this number.
    pub fn content(&self, alloc: Global, ino: u64, wanted: Wanted) -> Result<Content, Memory>
        requires short { wanted.link ≡ true → wanted.size ≤ 4095 }
        ensures { (plan : ℕ → Option WantedOf) (image : Image) (ranges : List RangeOf) (items : List TreeItem) → HasContents plan image ranges items (known_content self.now) → plan ino ≡ Some wanted →
            IfOk result (λ c. c ≡ content_in image ranges items ino wanted) }
    {
        match self.known.get(&ino) {
            Some(content) => copy(content),
            None => Hand::new(ino, wanted).finish(alloc),
        }
    }
}

fn copy(content: &Content) -> Result<Content, Memory>
    ensures { IfOk result (λ c. c ≡ content.now) }
{
    Ok(Content {
        length: content.length,
        mark: content.mark,
        target: content.target.clone()?,
    })
}
