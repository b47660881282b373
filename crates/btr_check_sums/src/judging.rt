// Blocks of data beside the checksums that are told of them.
ghost use Rattle.std.specs.Prelude.{◌≡◌, ◌<◌, [], All, IfErr, MatchResult};
ghost use Rattle.std.specs.Bool.{Decides};
ghost use Rattle.btr_check_rules.specs.btr_reader.outside.Fault.{HasCauseOf};
ghost use Rattle.btr_check_rules.specs.btr_reader.outside.History.{OverTold};
ghost use Rattle.btr_check_walk.specs.Parts.{IsPartAnswer, TellsPart};
ghost use Rattle.btr_check_sums.specs.DataSums.{IsRight, IsRightOf, IsWrongDue, IsWrongOne};

use crate::due_sum::{DataPass, DueSum};
use btr_check_rules::btr_reader::btr_reader_walk::{Block, BlockNo, BlockSource, Memory, SumKind};
use btr_check_walk::{Answer, SoundPart};
use csum_kinds::{kind_sum, kind_width};
use std::alloc::Global;

/// Whether a block has the checksum that is told of it.
fn is_right(kind: SumKind, block: &Block, due: &DueSum) -> bool
    ensures { Decides result (IsRightOf kind block.now.bytes due.now) }
{
    let width = kind_width(kind);
    let sum = kind_sum(kind, &block.bytes);
    due.sum[..width] == sum[..width]
}

/// Reads a block, and judges the checksum that is told of it.
fn judge_block<S: BlockSource>(src: &mut S, kind: SumKind, due: &DueSum) -> Result<(), Answer>
    requires inside { due.now.block < S.size src.old }
    ensures kept { S.kept src.old src.new }
    ensures cause { HasCauseOf Answer.Fault (S.faults src.old) (S.faults src.new) result }
    ensures answers { IfErr result IsPartAnswer }
    ensures right { OverTold S.tells (S.blocks src.old) (λ image. MatchResult result (λ _. IsRight image kind due.now) (TellsPart (IsWrongOne image kind due.now))) }
{
    let mut block = Block::zero();
    src.read(due.block, &mut block)?;
    SoundPart::Checksums.ask(is_right(kind, &block, due), due.address)
}

/// Judges the checksums of some blocks, one after the other.
fn judge_all<S: BlockSource>(src: &mut S, kind: SumKind, due: &[DueSum]) -> Result<(), Answer>
    requires inside { All (λ d. d.block < S.size src.old) due.now }
    ensures kept { S.kept src.old src.new }
    ensures cause { HasCauseOf Answer.Fault (S.faults src.old) (S.faults src.new) result }
    ensures answers { IfErr result IsPartAnswer }
    ensures right { OverTold S.tells (S.blocks src.old) (λ image. MatchResult result (λ _. All (IsRight image kind) due.now) (TellsPart (IsWrongDue image kind due.now))) }
{
    for d in due {
        judge_block(src, kind, d)?;
    }
    Ok(())
}

/// Tells a source which blocks come next, where there is memory for their numbers.
fn tell_blocks<S: BlockSource>(alloc: Global, src: &mut S, due: &[DueSum])
    ensures kept { S.kept src.old src.new }
    ensures faults { S.faults src.new ≡ S.faults src.old }
{
    if let Ok(blocks) = blocks_of(alloc, due) {
        src.will_read(blocks);
    }
}

/// The numbers of the blocks of some checksums.
fn blocks_of(alloc: Global, due: &[DueSum]) -> Result<Vec<BlockNo>, Memory> {
    let mut blocks = Vec::new(alloc);
    blocks.reserve_exact(due.len())?;
    for d in due {
        blocks.push(d.block)?;
    }
    Ok(blocks)
}

impl DataPass {
    /// Judges all checksums that are due, in the order of their blocks on the device. None is due then.
    pub fn judge<S: BlockSource>(&mut self, alloc: Global, src: &mut S) -> Result<(), Answer>
        requires inside { All (λ d. d.block < S.size src.old) self.old.due.items }
        ensures kept { S.kept src.old src.new }
        ensures cause { HasCauseOf Answer.Fault (S.faults src.old) (S.faults src.new) result }
        ensures answers { IfErr result IsPartAnswer }
        ensures kind { self.new.kind ≡ self.old.kind }
        ensures hand { self.new.hand ≡ self.old.hand }
        ensures emptied { self.new.due.items ≡ [] }
        ensures right { OverTold S.tells (S.blocks src.old) (λ image. MatchResult result (λ _. All (IsRight image self.old.kind) self.old.due.items) (TellsPart (IsWrongDue image self.old.kind self.old.due.items))) }
    {
        self.due.sort_unstable_by_key(|d| d.block);
        tell_blocks(alloc, src, &self.due);
        let judged = judge_all(src, self.kind, &self.due);
        self.due.clear();
        judged
    }
}
