ghost use Rattle.std.specs.Prelude.{◌≡◌, ◌≤◌, ◌++◌, ◌∷◌, [], true, ℕ, Option, Some, List, IsTrue, IfOk};
ghost use Rattle.std.specs.Result.{MatchResult};
ghost use Rattle.btr_reader_walk.specs.outside.Fault.{HasCauseOf};
ghost use Rattle.btr_reader_walk.specs.outside.History.{Image, OverTold};
ghost use Rattle.btr_reader_walk.specs.declared.map.MapRange.{MapRange as RangeOf};
ghost use Rattle.btr_reader_walk.specs.Events.{TreeItem};
ghost use Rattle.btr_reader_walk.specs.Walks.{LieOn};
ghost use Rattle.btr_reader_contents.specs.Blocks.{AreInBlocks};
ghost use Rattle.btr_reader_contents.specs.Extents.{is_extent_of, extents_of};
ghost use Rattle.btr_reader_contents.specs.Contents.{content_in, RefusesExtents};
ghost use Rattle.btr_reader_contents.specs.Gathering.{HoldsHand};
ghost use Rattle.btr_reader_contents.specs.declared.wanted.Wanted.{Wanted as WantedOf};

use crate::ExtentMarker;
use crate::content::{file_content, link_content};
use crate::hand::Hand;
use crate::wanted::Wanted;
use btr_reader_walk::{BlockSource, BtrAnswer, Key, MapRange, Memory};
use fs_rows::Content;
use std::alloc::Global;

impl Hand {
    /// It, before its first extent.
    pub fn new(ino: u64, wanted: Wanted) -> Hand
        requires short { wanted.link ≡ true → wanted.size ≤ 4095 }
        ensures ino { result.ino ≡ ino }
        ensures wanted { result.wanted ≡ wanted }
        ensures holds { (plan : ℕ → Option WantedOf) (image : Image) (ranges : List RangeOf) (given : List TreeItem) → plan ino ≡ Some wanted → extents_of given ino ≡ [] → HoldsHand plan image ranges given result }
    {
        Hand {
            ino,
            wanted,
            marker: ExtentMarker::new(wanted.size),
        }
    }

    /// Adds its next extent.
    pub fn add<S: BlockSource>(
        &mut self,
        src: &mut S,
        ranges: &[MapRange],
        key: &Key,
        body: &[u8],
        leaf: u64,
    ) -> Result<(), BtrAnswer>
        requires inside { LieOn (S.size src.old) ranges.now }
        ensures kept { S.kept src.old src.new }
        ensures cause { HasCauseOf BtrAnswer.Fault (S.faults src.old) (S.faults src.new) result }
        ensures ino { self.new.ino ≡ self.old.ino }
        ensures adds { OverTold S.tells (S.blocks src.old) (λ image. AreInBlocks ranges.now → (plan : ℕ → Option WantedOf) (given : List TreeItem) (i : TreeItem) →
            i.key ≡ key.now → i.body ≡ body.now → i.leaf ≡ leaf → is_extent_of self.old.ino i ≡ true → HoldsHand plan image ranges.now given self.old →
            MatchResult result (λ _. HoldsHand plan image ranges.now (given ++ i ∷ []) self.new) (RefusesExtents plan ranges.now (given ++ i ∷ []))) }
    {
        self.marker.add_extent(src, ranges, leaf, key.offset, body)?;
        Ok(())
    }

    /// Its content.
    pub fn finish(self, alloc: Global) -> Result<Content, Memory>
        ensures { (plan : ℕ → Option WantedOf) (image : Image) (ranges : List RangeOf) (given : List TreeItem) → HoldsHand plan image ranges given self →
            IfOk result (λ c. c ≡ content_in image ranges given self.ino self.wanted) }
    {
        if self.wanted.link {
            link_content(alloc, &self.marker, self.wanted.size)
        } else {
            file_content(alloc, self.marker, self.wanted.size)
        }
    }
}
