ghost use Rattle.std.specs.Prelude.{◌≡◌, ◌+◌, ◌%◌, ◌<◌, ◌≤◌, [], IsTrue, OnOk, IfErr};
ghost use Rattle.refusals.specs.outside.Fault.{HasCauseOf};
ghost use Rattle.refusals.specs.outside.History.{OverTold};
ghost use Rattle.reiser_super.specs.Journal.{pending_transactions, waiting_at, all_transactions, commits, is_descriptor, is_newer, last_flushed, names_place, next_place, transaction, transaction_length};
ghost use Rattle.reiser_super.specs.State.{IsJournalAnswer, IsPendingIn};

use crate::Super;
use refusals::{Block, BlockSource, VolAnswer, VolumeRefusal, has_magic, u32_at};
use reiserfs_format::block::JOURNAL_MAGIC_OFFSET;

/// Whether the journal of a volume holds a transaction that waits to be written back.
///
/// Where the header behind the log names a last flushed transaction above 0 and a place of the log, a transaction waits
/// only if it stands there whole: a descriptor block with a newer number, and its commit block behind its blocks, where
/// the log goes round at its end. A descriptor without its commit block is what a power cut in the middle of a commit
/// leaves, and Linux and `reiserfsck` take such a journal as empty. Without such a header each descriptor in the log
/// counts, and the error has the number of the first.
///
/// The log is read at most once. It takes no memory.
pub fn journal_state<S: BlockSource>(src: &mut S, sup: &Super) -> Result<(), VolAnswer>
    requires device { sup.now.blocks ≤ S.size src.old }
    requires inside { sup.now.journal_first + sup.now.journal_size < sup.now.blocks }
    ensures kept { S.kept src.old src.new }
    ensures cause { HasCauseOf VolAnswer.Fault (S.faults src.old) (S.faults src.new) result }
    ensures answers { IfErr result IsJournalAnswer }
    ensures clean { OverTold S.tells (S.blocks src.old) (λ image. OnOk result (pending_transactions sup.now image ≡ [])) }
    ensures pending { OverTold S.tells (S.blocks src.old) (λ image. IfErr result (IsPendingIn (pending_transactions sup.now image))) }
{
    let mut block = Block::zero();
    src.read(sup.journal_first + sup.journal_size, &mut block)?;
    if names_place(&block, sup.journal_size) {
        let flushed = last_flushed(&block);
        let place = next_place(&block) as u64;
        look_at_place(src, sup, flushed, place, &mut block)
    } else {
        look_at_log(src, sup, &mut block)
    }
}

/// Looks for a whole transaction that begins at a place of the log.
fn look_at_place<S: BlockSource>(
    src: &mut S,
    sup: &Super,
    flushed: u32,
    place: u64,
    block: &mut Block,
) -> Result<(), VolAnswer>
    requires device { sup.now.blocks ≤ S.size src.old }
    requires inside { sup.now.journal_first + sup.now.journal_size < sup.now.blocks }
    requires place { place < sup.now.journal_size }
    ensures kept { S.kept src.old src.new }
    ensures cause { HasCauseOf VolAnswer.Fault (S.faults src.old) (S.faults src.new) result }
    ensures answers { IfErr result IsJournalAnswer }
    ensures clean { OverTold S.tells (S.blocks src.old) (λ image. OnOk result (waiting_at sup.now image flushed place ≡ [])) }
    ensures pending { OverTold S.tells (S.blocks src.old) (λ image. IfErr result (IsPendingIn (waiting_at sup.now image flushed place))) }
{
    src.read(sup.journal_first + place, block)?;
    if !is_newer(block, flushed, sup.journal_size) {
        return Ok(());
    }
    let trans = transaction(block);
    let length = transaction_length(block);
    let commit = commit_place(sup.journal_size, place, length as u64);
    src.read(sup.journal_first + commit, block)?;
    if commits(block, trans, length) {
        return Err(VolAnswer::Refused(VolumeRefusal::JournalPending { trans }));
    }
    Ok(())
}

/// Looks for a descriptor anywhere in the log.
fn look_at_log<S: BlockSource>(src: &mut S, sup: &Super, block: &mut Block) -> Result<(), VolAnswer>
    requires device { sup.now.blocks ≤ S.size src.old }
    requires inside { sup.now.journal_first + sup.now.journal_size < sup.now.blocks }
    ensures kept { S.kept src.old src.new }
    ensures cause { HasCauseOf VolAnswer.Fault (S.faults src.old) (S.faults src.new) result }
    ensures answers { IfErr result IsJournalAnswer }
    ensures clean { OverTold S.tells (S.blocks src.old) (λ image. OnOk result (all_transactions sup.now image ≡ [])) }
    ensures pending { OverTold S.tells (S.blocks src.old) (λ image. IfErr result (IsPendingIn (all_transactions sup.now image))) }
{
    for place in 0..sup.journal_size {
        src.read(sup.journal_first + place, block)?;
        if is_descriptor(block) {
            let trans = transaction(block);
            return Err(VolAnswer::Refused(VolumeRefusal::JournalPending { trans }));
        }
    }
    Ok(())
}

/// The last transaction that was written back, by the journal's header.
#[tactic(auto, unfolding(crate::specs::Journal::last_flushed))]
fn last_flushed(header: &Block) -> u32
    ensures { result ≡ last_flushed header.now.bytes }
{
    u32_at(&header.bytes, 0)
}

/// Where in the log the next transaction begins, by the journal's header.
#[tactic(auto, unfolding(crate::specs::Journal::next_place))]
fn next_place(header: &Block) -> u32
    ensures { result ≡ next_place header.now.bytes }
{
    u32_at(&header.bytes, 4)
}

/// Whether the journal's header names a place of a log of `size` blocks.
#[tactic(auto, unfolding(crate::specs::Journal::names_place))]
fn names_place(header: &Block, size: u64) -> bool
    ensures test { result ≡ names_place size header.now.bytes }
    ensures fits { IsTrue result → next_place header.now.bytes < size }
{
    last_flushed(header) > 0 && (next_place(header) as u64) < size
}

/// Whether a block begins a transaction in the log.
#[tactic(auto, unfolding(crate::specs::Journal::is_descriptor))]
fn is_descriptor(block: &Block) -> bool
    ensures { result ≡ is_descriptor block.now.bytes }
{
    has_magic(block, JOURNAL_MAGIC_OFFSET, b"ReIsErLB")
}

/// The number of the transaction that a descriptor or a commit block belongs to.
#[tactic(auto, unfolding(crate::specs::Journal::transaction))]
fn transaction(block: &Block) -> u32
    ensures { result ≡ transaction block.now.bytes }
{
    u32_at(&block.bytes, 0)
}

/// The length of that transaction in blocks.
#[tactic(auto, unfolding(crate::specs::Journal::transaction_length))]
fn transaction_length(block: &Block) -> u32
    ensures { result ≡ transaction_length block.now.bytes }
{
    u32_at(&block.bytes, 4)
}

/// Whether a block is the descriptor of a transaction after `flushed` that fits into a log of `size` blocks.
#[tactic(auto, unfolding(crate::specs::Journal::is_newer))]
fn is_newer(block: &Block, flushed: u32, size: u64) -> bool
    ensures test { result ≡ is_newer flushed size block.now.bytes }
    ensures fits { IsTrue result → transaction_length block.now.bytes < size }
{
    let length = transaction_length(block) as u64;
    is_descriptor(block) && flushed < transaction(block) && 1 <= length && length < size
}

/// Whether a block begins as the commit block of a transaction.
#[tactic(auto, unfolding(crate::specs::Journal::commits))]
fn commits(block: &Block, trans: u32, length: u32) -> bool
    ensures { result ≡ commits trans length block.now.bytes }
{
    transaction(block) == trans && transaction_length(block) == length
}

/// Where in the log the commit block of a transaction of `length` blocks is, whose descriptor is at `place`.
fn commit_place(size: u64, place: u64, length: u64) -> u64
    requires place { place < size }
    requires length { length < size }
    ensures { result ≡ (place + length + 1) % size }
{
    let to_end = size - place - 1;
    if length < to_end {
        place + length + 1
    } else {
        length - to_end
    }
}
