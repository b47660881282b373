// The sums over the chunks and the block groups of a volume.
ghost use Rattle.std.specs.Prelude.{◌≡◌, ℕ, IfErr, MatchResult};
ghost use Rattle.btr_check_rules.specs.Groups.{KeepsTotals, groups as groups_on};
ghost use Rattle.btr_check_rules.specs.Recount.{recount};
ghost use Rattle.btr_check_rules.specs.Sound.{Totals, part_number};
ghost use Rattle.btr_check_rules.specs.btr_reader.Volume.{IsVolumeOn};
ghost use Rattle.btr_check_rules.specs.btr_reader.btr_space_items.btrfs_format.declared.block.TheConstants.{SUPER_INFO_OFFSET};
ghost use Rattle.btr_check_rules.specs.btr_reader.outside.History.{Image};
ghost use Rattle.btr_check_fields.specs.Read.{AreReadOf, group_at};
ghost use Rattle.btr_check_walk.specs.Answers.{IsPassAnswer};
ghost use Rattle.btr_check_walk.specs.command_answers.declared.answer.Answer.TheVariants as answers;
ghost use Rattle.btr_check_trees.specs.ChunkTree.{KeepsChunkTree};

use crate::chunk_tree::ChunksFound;
use btr_check_fields::{GroupAt, totals_hold};
use btr_check_rules::btr_reader::Btrfs;
use btr_check_rules::btr_reader::btrfs_format::block::SUPER_INFO_OFFSET;
use btr_check_walk::{Answer, SoundPart};

/// Judges the sums over the chunks and the block groups of an opened volume. Where they are not those that the superblock and
/// the device's item tell, part 9 fails at the superblock.
pub fn judge_totals(volume: &Btrfs, found: &ChunksFound, groups: &[GroupAt]) -> Result<(), Answer>
    ensures told { IfErr result (λ e. e ≡ answers.NotSound (part_number Totals) SUPER_INFO_OFFSET) }
    ensures sums { (image : Image) → IsVolumeOn image volume.now → KeepsChunkTree image found.now → AreReadOf group_at (groups_on (recount image)) groups.now → MatchResult result (λ _. (a : ℕ) → KeepsTotals (recount image) a) (IsPassAnswer image) }
{
    let hold = totals_hold(
        volume.sup(),
        found.chunks.as_slice(),
        groups,
        &found.devices,
    );
    SoundPart::Totals.ask(hold, SUPER_INFO_OFFSET)
}
