ghost use Rattle.std.specs.Prelude.{◌≡◌, [], ℕ, List, IfErr};
ghost use Rattle.std.specs.Result.{MatchResult};
ghost use Rattle.reiser_volume_objects.specs.outside.Fault.{HasCauseOf};
ghost use Rattle.reiser_volume_objects.specs.outside.History.{OverTold};
ghost use Rattle.reiser_volume_objects.specs.reiser_walk.Items.{ReiserItem};
ghost use Rattle.reiser_volume_files.specs.Runs.{file_runs};
ghost use Rattle.reiser_volume_contents.specs.Answers.{IsFileAnswer, IsFaultOrMemory, NamesLeaf};
ghost use Rattle.reiser_volume_contents.specs.Holds.{AreFileItems};
ghost use Rattle.reiser_volume_contents.specs.Reads.{Reads, StandsFrom};

use crate::ObjectItems;
use reiser_volume_files::{FileMap, FileMapper};
use reiser_volume_objects::{BlockSource, LeafList, VolAnswer};
use std::alloc::Global;

/// The map of a file of `size` bytes, whose items a reader is about to give.
pub fn map_items<S: BlockSource>(
    alloc: Global,
    src: &mut S,
    leaves: &LeafList,
    mut items: ObjectItems,
    size: u64,
) -> Result<FileMap, VolAnswer>
    ensures kept { S.kept src.old src.new }
    ensures cause { HasCauseOf VolAnswer.Fault (S.faults src.old) (S.faults src.new) result }
    ensures answers { IfErr result IsFileAnswer }
    ensures names { (first : ℕ) → StandsFrom first leaves.now items → IfErr result (NamesLeaf first leaves.now) }
    ensures map { OverTold S.tells (S.blocks src.old) (λ image. (all : List ReiserItem) → AreFileItems (S.size src.old) all → Reads items leaves.now image [] all →
        MatchResult result (λ map. map ≡ file_runs all size) IsFaultOrMemory) }
{
    let mut mapper = FileMapper::new(alloc, size);
    while items.advance(src, leaves)? {
        mapper.add_item(&items.head(), items.body())?;
    }
    let map = mapper.finish()?;
    Ok(map)
}
