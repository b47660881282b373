ghost use Rattle.std.specs.Prelude.{◌≡◌, ◌<◌, ◌*◌, ◌^◌, [], ℕ, List, IfErr};
ghost use Rattle.std.specs.Result.{MatchResult};
ghost use Rattle.reiser_volume_objects.specs.outside.Fault.{HasCauseOf};
ghost use Rattle.reiser_volume_objects.specs.outside.History.{OverTold};
ghost use Rattle.reiser_volume_objects.specs.reiser_walk.Items.{ReiserItem};
ghost use Rattle.reiser_volume_files.specs.Bytes.{tail_block};
ghost use Rattle.reiser_volume_contents.specs.Answers.{IsReadAnswer, IsFault, NamesLeaf};
ghost use Rattle.reiser_volume_contents.specs.Holds.{AreFileItems};
ghost use Rattle.reiser_volume_contents.specs.Reads.{Reads, StandsFrom};

use crate::ObjectItems;
use reiser_volume_files::put_tail;
use reiser_volume_objects::{Block, BlockSource, LeafList, VolAnswer};

/// Gathers what the direct items, which a reader is about to give, hold of block `k` of a file of `size` bytes.
pub fn gather_items<S: BlockSource>(
    src: &mut S,
    leaves: &LeafList,
    mut items: ObjectItems,
    size: u64,
    k: u64,
    into: &mut Block,
) -> Result<(), VolAnswer>
    requires { 4096 * k < 2 ^ 64 }
    ensures kept { S.kept src.old src.new }
    ensures cause { HasCauseOf VolAnswer.Fault (S.faults src.old) (S.faults src.new) result }
    ensures answers { IfErr result IsReadAnswer }
    ensures names { (first : ℕ) → StandsFrom first leaves.now items → IfErr result (NamesLeaf first leaves.now) }
    ensures tail { OverTold S.tells (S.blocks src.old) (λ image. (all : List ReiserItem) → AreFileItems (S.size src.old) all → Reads items leaves.now image [] all →
        MatchResult result (λ _. into.new.bytes ≡ tail_block all size k) IsFault) }
{
    *into = Block::zero();
    while items.advance(src, leaves)? {
        put_tail(into, k, size, &items.head(), items.body());
    }
    Ok(())
}
