ghost use Rattle.std.specs.Prelude.{◌≡◌, ◌≤◌, true, false, ℕ, List, IfOk};
ghost use Rattle.btr_reader_walk.specs.outside.History.{Image};
ghost use Rattle.btr_reader_walk.specs.declared.map.MapRange.{MapRange as RangeOf};
ghost use Rattle.btr_reader_walk.specs.Events.{TreeItem};
ghost use Rattle.btr_reader_contents.specs.Extents.{extents_of, bytes_of_inode};
ghost use Rattle.btr_reader_contents.specs.States.{MarksExtents};
ghost use Rattle.btr_reader_contents.specs.Contents.{content_of};

use crate::ExtentMarker;
use btr_reader_walk::Memory;
use fs_rows::{Content, Name};
use std::alloc::Global;

/// The content of a file of `size` bytes, whose extents the marker was given.
pub fn file_content(alloc: Global, marker: ExtentMarker, size: u64) -> Result<Content, Memory>
    ensures { (image : Image) (ranges : List RangeOf) (items : List TreeItem) (ino : ℕ) → marker.file.size ≡ size → MarksExtents marker image ranges (extents_of items ino) →
        IfOk result (λ c. c ≡ content_of false (bytes_of_inode image ranges items ino size)) }
{
    Ok(Content {
        length: size,
        mark: marker.finish(),
        target: Name::new(alloc, b"")?,
    })
}

/// The content of a symlink whose target has `size` bytes.
pub fn link_content(alloc: Global, marker: &ExtentMarker, size: u64) -> Result<Content, Memory>
    requires { marker.now.file.size ≤ 4096 }
    ensures { (image : Image) (ranges : List RangeOf) (items : List TreeItem) (ino : ℕ) → marker.now.file.size ≡ size → MarksExtents marker.now image ranges (extents_of items ino) →
        IfOk result (λ c. c ≡ content_of true (bytes_of_inode image ranges items ino size)) }
{
    Ok(Content {
        length: size,
        mark: [0; 32],
        target: Name::new(alloc, marker.target())?,
    })
}
