ghost use Rattle.extent_pieces.specs.Parts.{Gathers};
ghost use Rattle.std.specs.Prelude.{[], List, Bool};
ghost use Rattle.reiser_volume.specs.reiser_walk.Items.{ReiserItem};
ghost use Rattle.reiser_volume_objects.specs.declared.key.ObjectKey.{ObjectKey as KeyOf};

use crate::run::OwnedRun;
use crate::tail::Tail;
use std::alloc::Global;

/// What the named files and symlinks of a volume have.
#[derive(Drop)]
pub struct FileParts {
    /// The blocks of the volume that files own.
    pub owned: Vec<OwnedRun>,
    /// By inode and block of the file.
    pub tails: Vec<Tail>,
    /// The files and symlinks whose bytes stay in the tree.
    pub inlines: u64,
    /// The bytes of these.
    pub inline_bytes: u64,
}

impl FileParts {
    /// Of no files.
    pub fn new(alloc: Global) -> FileParts
        ensures { (inline : Bool) (items : List ReiserItem) (keys : List KeyOf) → Gathers inline items keys [] result }
    {
        FileParts {
            owned: Vec::new(alloc),
            tails: Vec::new(alloc),
            inlines: 0,
            inline_bytes: 0,
        }
    }
}
