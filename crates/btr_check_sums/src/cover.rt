// Which blocks have checksums, beside those that need them.
ghost use Rattle.std.specs.Prelude.{◌≡◌, ◌<◌, ◌*◌, ◌^◌, ℕ, IfErr, OnOk};
ghost use Rattle.std.specs.Option.{MatchOption};
ghost use Rattle.btr_check_rules.specs.Sound.{Checksums, part_number};
ghost use Rattle.btr_check_sums.specs.Cover.{IsCoverRight, MayHaveSum};
ghost use Rattle.btr_check_walk.specs.command_answers.declared.answer.Answer.TheVariants as answers;

use crate::use_of_data::UsedBlocks;
use btr_check_walk::{Answer, SoundPart};
use number_runs::Runs;

/// A block with a checksum that may have none, or that is no data, by its number.
fn wrong_sum(used: &UsedBlocks, covered: &Runs) -> Option<u64>
    ensures { MatchOption result ((n : ℕ) → MayHaveSum used.now covered.now n) (λ n. ¬ MayHaveSum used.now covered.now n) }
{
    match used.bare.first_shared(covered) {
        Some(n) => Some(n),
        None => covered.first_outside(&used.data),
    }
}

/// A block at which the cover is wrong, by its number: it has no checksum and needs one, or has one and may have none.
fn wrong_cover(used: &UsedBlocks, covered: &Runs) -> Option<u64>
    ensures { MatchOption result ((n : ℕ) → IsCoverRight used.now covered.now n) (λ n. ¬ IsCoverRight used.now covered.now n) }
{
    match used.wanted.first_outside(covered) {
        Some(n) => Some(n),
        None => wrong_sum(used, covered),
    }
}

/// The address of a block, in bytes.
fn address_of(block: u64) -> u64
    ensures { block < 2 ^ 52 → result ≡ 4096 * block }
{
    block.saturating_mul(4096)
}

/// Judges which blocks have checksums: those that need them, none that may have none, and no block that is not data.
pub fn judge_cover(used: &UsedBlocks, covered: &Runs) -> Result<(), Answer>
    ensures ok { OnOk result ((n : ℕ) → IsCoverRight used.now covered.now n) }
    ensures told { IfErr result (λ e. (address : ℕ) × (e ≡ answers.NotSound (part_number Checksums) address)) }
    ensures err { IfErr result (λ e. (n : ℕ) × (¬ IsCoverRight used.now covered.now n) × (n < 2 ^ 52 → e ≡ answers.NotSound (part_number Checksums) (4096 * n))) }
{
    match wrong_cover(used, covered) {
        Some(n) => Err(SoundPart::Checksums.fails_at(address_of(n))),
        None => Ok(()),
    }
}
