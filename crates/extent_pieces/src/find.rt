ghost use Rattle.std.specs.Prelude.{◌≡◌, ◌++◌, Bool, map, OnOk, IfOk, IfErr};
ghost use Rattle.std.specs.Result.{MatchResult};
ghost use Rattle.indexmap.specs.IndexMap.{keys};
ghost use Rattle.reiser_bitmap.specs.outside.Fault.{HasCauseOf};
ghost use Rattle.reiser_bitmap.specs.outside.History.{Image, OverTold};
ghost use Rattle.reiser_bitmap.specs.refusals.declared.answer.VolAnswer.TheVariants.{Refused};
ghost use Rattle.reiser_bitmap.specs.refusals.declared.refusal.VolumeRefusal.TheVariants.{Damaged};
ghost use Rattle.reiser_bitmap.specs.refusals.declared.rule.Rule.TheVariants.{Reread};
ghost use Rattle.reiser_volume.specs.reiser_volume_contents.Answers.{IsFileAnswer, IsFaultOrMemory};
ghost use Rattle.reiser_volume.specs.Opened.{IsOpened, links_in};
ghost use Rattle.reiser_volume.specs.Volume.{IsAccepted, volume_items};
ghost use Rattle.unit_plan.specs.Needed.{AreSmall};
ghost use Rattle.extent_pieces.specs.Found.{IsFound};
ghost use Rattle.extent_pieces.specs.Parts.{AreParts};
ghost use Rattle.extent_pieces.specs.Pieces.{tail_piece};
ghost use Rattle.extent_pieces.specs.Placed.{IsCounted};

use crate::Pieces;
use crate::copies::add_copies;
use crate::counts::{are_small, counts_of};
use crate::divide::{add_kept, count_kept};
use crate::parts::FileParts;
use crate::tail::Tail;
use reiser_bitmap::{BlockNo, BlockSource, Memory, Rule, VolAnswer, VolumeRefusal};
use reiser_volume::Volume;
use std::alloc::Global;
use unit_plan::Piece;
use unit_plan::convert_options::Options;

/// The most blocks of a volume that are reserved.
const MOST_COPIES: usize = 303;

impl Pieces {
    /// The pieces of an opened volume, and what is counted of it, for a conversion with these options. Copies and tails
    /// have no place yet.
    ///
    /// The leaves of each file are read once. A refusal names a block that the device has no more, or that reads otherwise
    /// than when the volume was opened.
    pub fn find<S: BlockSource>(
        alloc: Global,
        src: &mut S,
        volume: &Volume,
        options: &Options,
    ) -> Result<Pieces, VolAnswer>
        ensures kept { S.kept src.old src.new }
        ensures cause { HasCauseOf VolAnswer.Fault (S.faults src.old) (S.faults src.new) result }
        ensures answers { IfErr result IsFileAnswer }
        ensures small { IfOk result (λ found. AreSmall found.counts) }
        ensures counted { IfOk result (IsCounted volume.now.bitmap) }
        ensures found { OverTold S.tells (S.blocks src.old) (λ image. IsAccepted image → IsOpened volume.now image →
            MatchResult result (IsFound options.now.inline image (keys volume.now.named) (links_in volume.now)) IsFaultOrMemory) }
    {
        let parts = FileParts::read(alloc, src, volume, options.inline)?;
        let pieces = divide(alloc, volume, &parts)?;
        if !are_small(&pieces.counts) {
            return Err(changed(volume.sup().root));
        }
        Ok(pieces)
    }
}

/// The pieces of a volume whose files have these parts.
fn divide(alloc: Global, volume: &Volume, parts: &FileParts) -> Result<Pieces, Memory>
    ensures found { (inline : Bool) (image : Image) → IsAccepted image → IsOpened volume.now image → AreParts inline (volume_items image) (keys volume.now.named) parts.now →
        IfOk result (IsFound inline image (keys volume.now.named) (links_in volume.now)) }
    ensures counted { IfOk result (IsCounted volume.now.bitmap) }
{
    let room = count_kept(volume.bitmap(), &parts.owned)
        .saturating_add(MOST_COPIES)
        .saturating_add(parts.tails.len());
    let mut items = Vec::with_capacity(alloc, room)?;
    add_kept(&mut items, volume.bitmap(), &parts.owned)?;
    let kept = items.len();
    add_copies(&mut items, volume.bitmap(), &parts.owned)?;
    add_tails(&mut items, &parts.tails)?;
    let counts = counts_of(volume, parts, &items, kept)?;
    Ok(Pieces {
        items,
        kept,
        counts,
    })
}

/// Appends a piece for each tail. It has no place yet.
fn add_tails(items: &mut Vec<Piece>, tails: &[Tail]) -> Result<(), Memory>
    ensures { OnOk result (items.new.items ≡ items.old.items ++ map tail_piece tails.now) }
{
    for tail in tails {
        items.push(Piece {
            from: None,
            count: 1,
            owner: Some((tail.inode, tail.at)),
            place: 0,
        })?;
    }
    Ok(())
}

/// What is answered where a block reads otherwise than when the volume was opened.
fn changed(block: BlockNo) -> VolAnswer
    ensures { result ≡ Refused (Damaged block Reread) }
{
    VolAnswer::Refused(VolumeRefusal::Damaged {
        block,
        rule: Rule::Reread,
    })
}
