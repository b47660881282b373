ghost use Rattle.std.specs.Prelude.{◌≡◌, ◌++◌, ◌∷◌, [], ℕ, List, true, Some, IfErr};
ghost use Rattle.std.specs.Result.{MatchResult};
ghost use Rattle.reiser_volume_objects.specs.outside.Fault.{HasCauseOf};
ghost use Rattle.reiser_volume_objects.specs.outside.History.{OverTold};
ghost use Rattle.fs_rows.specs.Mark.{mark_of_bytes};
ghost use Rattle.reiser_volume_objects.specs.reiser_walk.Items.{ReiserItem};
ghost use Rattle.reiser_volume_files.specs.Bytes.{file_bytes, MayFollow};
ghost use Rattle.reiser_volume_files.specs.Pieces.{are_inside};
ghost use Rattle.reiser_volume_files.specs.States.{MarksFile};
ghost use Rattle.reiser_volume_contents.specs.Answers.{IsReadAnswer, IsFault, NamesLeaf};
ghost use Rattle.reiser_volume_contents.specs.Holds.{AreFileItems};
ghost use Rattle.reiser_volume_contents.specs.Reads.{Reads, StandsFrom, HasItem, standing};

use crate::ObjectItems;
use crate::open::changed;
use reiser_volume_files::{FileMarker, are_inside};
use reiser_volume_objects::{BlockSource, LeafList, VolAnswer};

/// The mark of a file of `size` bytes, whose items a reader is about to give.
pub fn mark_items<S: BlockSource>(
    src: &mut S,
    leaves: &LeafList,
    mut items: ObjectItems,
    size: u64,
) -> Result<[u8; 32], VolAnswer>
    ensures kept { S.kept src.old src.new }
    ensures cause { HasCauseOf VolAnswer.Fault (S.faults src.old) (S.faults src.new) result }
    ensures answers { IfErr result IsReadAnswer }
    ensures names { (first : ℕ) → StandsFrom first leaves.now items → IfErr result (NamesLeaf first leaves.now) }
    ensures mark { OverTold S.tells (S.blocks src.old) (λ image. (all : List ReiserItem) → AreFileItems (S.size src.old) all → Reads items leaves.now image [] all →
        MatchResult result (λ mark. mark ≡ mark_of_bytes (file_bytes image all size)) IsFault) }
{
    let mut marker = FileMarker::new(size);
    while items.advance(src, leaves)? {
        mark_item(&mut marker, src, &items)?;
    }
    Ok(marker.finish())
}

/// Gives a marker the item that stands.
fn mark_item<S: BlockSource>(
    marker: &mut FileMarker,
    src: &mut S,
    items: &ObjectItems,
) -> Result<(), VolAnswer>
    requires stands { HasItem items.now }
    ensures kept { S.kept src.old src.new }
    ensures cause { HasCauseOf VolAnswer.Fault (S.faults src.old) (S.faults src.new) result }
    ensures answers { IfErr result IsReadAnswer }
    ensures names { (first : ℕ) (leaves : List ℕ) → StandsFrom first leaves items.now → IfErr result (NamesLeaf first leaves) }
    ensures size { marker.new.file.size ≡ marker.old.file.size }
    ensures given { OverTold S.tells (S.blocks src.old) (λ image. (given : List ReiserItem) (i : ReiserItem) → standing items.now ≡ Some i →
        MayFollow given i → are_inside i.head.kind i.body (S.size src.old) ≡ true → MarksFile marker.old image given →
        MatchResult result (λ _. MarksFile marker.new image (given ++ i ∷ [])) IsFault) }
{
    let head = items.head();
    if !are_inside(&head, items.body(), src.len()) {
        return Err(changed(items.leaf()));
    }
    marker.add_item(src, &head, items.body())?;
    Ok(())
}
