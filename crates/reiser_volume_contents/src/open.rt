ghost use Rattle.std.specs.Prelude.{◌≡◌, ◌≢◌, ◌≤◌, ◌<◌, IsOk, IfOk, IfErr};
ghost use Rattle.std.specs.Result.{MatchResult};
ghost use Rattle.reiser_volume_objects.specs.outside.Fault.{HasCauseOf};
ghost use Rattle.reiser_volume_objects.specs.outside.History.{Image, block_at, OverTold};
ghost use Rattle.reiser_volume_objects.specs.reiser_node.Leaf.{IsLeaf};
ghost use Rattle.reiser_volume_contents.specs.Answers.{IsReadAnswer, IsFault, NamesBlock};
ghost use Rattle.reiser_volume_contents.specs.Reads.{IsLeafOf, IsWholeLeaf};

use crate::leaf::{LeafInHand, NodeCursor};
use reiser_volume_objects::{
    Block, BlockNo, BlockSource, LeafView, Rule, VolAnswer, VolumeRefusal,
};

impl LeafInHand {
    /// No leaf.
    pub fn none() -> LeafInHand
        ensures { result.at ≡ record { next = 0; left = 0 } }
    {
        LeafInHand {
            no: 0,
            block: Block::zero(),
            at: NodeCursor { next: 0, left: 0 },
        }
    }

    /// Reads a leaf, all of whose items are to come. Where the block is no leaf of the volume any more, this is refused.
    pub fn read<S: BlockSource>(src: &mut S, no: BlockNo) -> Result<LeafInHand, VolAnswer>
        ensures kept { S.kept src.old src.new }
        ensures cause { HasCauseOf VolAnswer.Fault (S.faults src.old) (S.faults src.new) result }
        ensures answers { IfErr result IsReadAnswer }
        ensures names { IfErr result (NamesBlock no) }
        ensures no { IfOk result (λ l. l.no ≡ no) }
        ensures few { IfOk result (λ l. l.at.left ≤ 169) }
        ensures some { IfOk result (λ l. 0 < l.at.left) }
        ensures whole { OverTold S.tells (S.blocks src.old) (λ image. IsLeafOf image no → MatchResult result (IsWholeLeaf image no) IsFault) }
    {
        if no >= src.len() {
            return Err(changed(no));
        }
        let mut block = Block::zero();
        src.read(no, &mut block)?;
        LeafInHand::open(no, block)
    }

    /// The items of a leaf whose block was read.
    fn open(no: BlockNo, block: Block) -> Result<LeafInHand, VolAnswer>
        ensures answers { IfErr result IsReadAnswer }
        ensures names { IfErr result (NamesBlock no) }
        ensures no { IfOk result (λ l. l.no ≡ no) }
        ensures not_fault { IfErr result (λ e. e ≢ VolAnswer.Fault) }
        ensures few { IfOk result (λ l. l.at.left ≤ 169) }
        ensures some { IfOk result (λ l. 0 < l.at.left) }
        ensures whole { (image : Image) → block.bytes ≡ block_at image no → IsLeafOf image no → IfOk result (IsWholeLeaf image no) }
        ensures leaf { IsLeaf block.bytes → IsOk result }
    {
        let Some(view) = LeafView::read(&block) else {
            return Err(changed(no));
        };
        let left = view.count();
        Ok(LeafInHand {
            no,
            block,
            at: NodeCursor { next: 0, left },
        })
    }
}

/// The refusal of a block that was changed since the walk.
pub fn changed(block: BlockNo) -> VolAnswer
    ensures { result ≡ VolAnswer.Refused (VolumeRefusal.Damaged block Rule.Reread) }
{
    VolAnswer::Refused(VolumeRefusal::Damaged {
        block,
        rule: Rule::Reread,
    })
}
