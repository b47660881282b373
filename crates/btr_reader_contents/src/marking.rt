ghost use Rattle.std.specs.Prelude.{◌≡◌, ◌≤◌, ◌<◌, ◌+◌, ◌-◌, ◌*◌, ◌^◌, ◌++◌, ◌∷◌, [], ℕ, List, Some, min, true, Contains, IfErr, IfOk, OnOk};
ghost use Rattle.btr_reader_walk.specs.outside.Fault.{HasCause, HasCauseOf};
ghost use Rattle.btr_reader_walk.specs.outside.History.{Image, OverTold};
ghost use Rattle.btr_reader_walk.specs.btr_keys.FileExtent.{content_value, file_extent_of, file_extent_value};
ghost use Rattle.btr_reader_walk.specs.declared.map.MapRange.{MapRange as RangeOf};
ghost use Rattle.btr_reader_walk.specs.Events.{TreeItem};
ghost use Rattle.btr_reader_walk.specs.Walks.{Blames, LieOn};
ghost use Rattle.fs_rows.specs.Held.{HoldsBytes};
ghost use Rattle.fs_rows.specs.Mark.{mark_of_bytes};
ghost use Rattle.btr_reader_contents.specs.Blocks.{AreInBlocks};
ghost use Rattle.btr_reader_contents.specs.Parts.{Appends};
ghost use Rattle.btr_reader_contents.specs.Extents.{content_byte, covered_by, extents_of, extents_refusals, extent_refusals, extent_length, bytes_of_inode, is_aligned, refusals_at};
ghost use Rattle.btr_reader_contents.specs.States.{MarksExtents, ReachSoFar};

use crate::extents::{Reach, check_extent, covered_by, extent_length};
use crate::marker::ExtentMarker;
use crate::target::put_content;
use btr_reader_walk::{
    BlockSource, BtrAnswer, BtrRefusal, BtrRule, ExtentContent, Fault, FileExtent, MapRange,
};
use fs_rows::FileBytes;

/// The extent that a body is, from byte `offset` of a file on, or what is wrong with it behind those before.
fn read_extent<'a>(
    reach: &Reach,
    ranges: &[MapRange],
    leaf: u64,
    offset: u64,
    body: &'a [u8],
) -> Result<FileExtent<'a>, BtrRefusal>
    requires { reach.now.covered < 2 ^ 59 }
    ensures read { IfOk result (λ e. file_extent_of body.now ≡ Some (file_extent_value e)) }
    ensures few { IfOk result (λ e. reach.now.covered + covered_by (content_value e.content) < 2 ^ 59) }
    ensures sound { IfOk result (λ e. extent_refusals ranges.now reach.now.end reach.now.covered offset leaf (file_extent_value e) ≡ []) }
    ensures err { (i : TreeItem) → i.leaf ≡ leaf → i.key.offset ≡ offset → i.body ≡ body.now →
        IfErr result (λ r. Contains (refusals_at ranges.now reach.now.end reach.now.covered i (file_extent_of i.body)) r) }
{
    let extent = match FileExtent::read(body) {
        Some(extent) => extent,
        None => {
            return Err(BtrRefusal::BadBtrfs {
                address: leaf,
                rule: BtrRule::Body,
            });
        }
    };
    check_extent(reach, ranges, offset, leaf, &extent)?;
    Ok(extent)
}

impl ExtentMarker {
    /// A marker of a file of `size` bytes that was given no extent.
    pub fn new(size: u64) -> ExtentMarker
        ensures size { result.file.size ≡ size }
        ensures none { (image : Image) (ranges : List RangeOf) → MarksExtents result image ranges [] }
    {
        ExtentMarker {
            file: FileBytes::new(size),
            reach: Reach { end: 0, covered: 0 },
        }
    }

    /// Puts an extent that was read and checked.
    fn put_extent<S: BlockSource>(
        &mut self,
        src: &mut S,
        ranges: &[MapRange],
        offset: u64,
        content: &ExtentContent<'_>,
    ) -> Result<(), Fault>
        requires inside { LieOn (S.size src.old) ranges.now }
        requires few { self.old.reach.covered + covered_by (content_value content.now) < 2 ^ 59 }
        ensures kept { S.kept src.old src.new }
        ensures cause { HasCause (S.faults src.old) (S.faults src.new) result }
        ensures size { self.new.file.size ≡ self.old.file.size }
        ensures reach { OnOk result (self.new.reach ≡ record { end = offset + extent_length (content_value content.now); covered = self.old.reach.covered + covered_by (content_value content.now) }) }
        ensures near { 4096 * self.old.file.next ≤ offset → OnOk result (4096 * self.new.file.next ≤ offset + extent_length (content_value content.now)) }
        ensures bytes { OverTold S.tells (S.blocks src.old) (λ image. AreInBlocks ranges.now → is_aligned offset (content_value content.now) ≡ true →
            (f g : ℕ → ℕ) → Appends offset (min (extent_length (content_value content.now)) (self.old.file.size - offset)) (content_byte image ranges.now (content_value content.now)) f g →
            4096 * self.old.file.next ≤ offset → HoldsBytes self.old.file f → OnOk result (HoldsBytes self.new.file g)) }
    {
        put_content(&mut self.file, src, ranges, offset, content)?;
        self.reach = Reach {
            end: offset as u128 + extent_length(content) as u128,
            covered: self.reach.covered + covered_by(content) as u128,
        };
        Ok(())
    }

    /// Adds the next extent of the inode, whose key has this offset and that lies in the leaf at address `leaf`. It is
    /// refused where something is wrong with it, past the size too. The blocks that a regular extent has below the size
    /// are read, each once. Nothing is known of a marker after an error.
    pub fn add_extent<S: BlockSource>(
        &mut self,
        src: &mut S,
        ranges: &[MapRange],
        leaf: u64,
        offset: u64,
        body: &[u8],
    ) -> Result<(), BtrAnswer>
        requires inside { LieOn (S.size src.old) ranges.now }
        ensures kept { S.kept src.old src.new }
        ensures cause { HasCauseOf BtrAnswer.Fault (S.faults src.old) (S.faults src.new) result }
        ensures size { self.new.file.size ≡ self.old.file.size }
        ensures reaches { (given : List TreeItem) (i : TreeItem) → i.leaf ≡ leaf → i.key.offset ≡ offset → i.body ≡ body.now →
            ReachSoFar self.old.reach ranges.now given → OnOk result (ReachSoFar self.new.reach ranges.now (given ++ i ∷ [])) }
        ensures refused { (given : List TreeItem) (i : TreeItem) → i.leaf ≡ leaf → i.key.offset ≡ offset → i.body ≡ body.now →
            ReachSoFar self.old.reach ranges.now given → IfErr result (Blames (extents_refusals ranges.now 0 0 (given ++ i ∷ []))) }
        ensures marks { OverTold S.tells (S.blocks src.old) (λ image. AreInBlocks ranges.now → (given : List TreeItem) (i : TreeItem) →
            i.leaf ≡ leaf → i.key.offset ≡ offset → i.body ≡ body.now → MarksExtents self.old image ranges.now given → OnOk result (MarksExtents self.new image ranges.now (given ++ i ∷ []))) }
    {
        let extent = read_extent(&self.reach, ranges, leaf, offset, body)?;
        self.put_extent(src, ranges, offset, &extent.content)?;
        Ok(())
    }

    /// The mark of the file.
    pub fn finish(self) -> [u8; 32]
        ensures { (image : Image) (ranges : List RangeOf) (items : List TreeItem) (ino : ℕ) → MarksExtents self image ranges (extents_of items ino) →
            result ≡ mark_of_bytes (bytes_of_inode image ranges items ino self.file.size) }
    {
        self.file.mark()
    }

    /// The target of a symlink of at most 4096 bytes.
    pub fn target(&self) -> &[u8]
        requires { self.now.file.size ≤ 4096 }
        ensures { (image : Image) (ranges : List RangeOf) (items : List TreeItem) (ino : ℕ) → MarksExtents self.now image ranges (extents_of items ino) →
            result.now ≡ bytes_of_inode image ranges items ino self.now.file.size }
    {
        self.file.short()
    }
}
