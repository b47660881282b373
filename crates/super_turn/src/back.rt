// Block 16 is put back.
ghost use Rattle.std.specs.Prelude.{◌≡◌, ◌⊎◌, ◌<◌, true, false, Option, Some, None, IfOk, IsTrue, OnOk, is_some};
ghost use Rattle.outside.specs.Fault.{HasCause};
ghost use Rattle.outside.specs.History.{EachCrash, IsSettled, OverTold, block_at, reads};
ghost use Rattle.outside.specs.Writes.{Writes};
ghost use Rattle.super_turn.specs.Found.{IsFoundBefore};
ghost use Rattle.super_turn.specs.PutBack.{IsPuttingBack, is_half_turned, put_back};

use crate::mark::{is_half, marked_place, names_copy, with_first};
use crate::steps::{read_block, turn_two};
use outside::btrfs_format::block::SUPER_BLOCK;
use outside::{Access, Block, BlockSource, Disk, Fault};

/// Puts block 16 back, where turning it was cut off: it becomes the block that its mark names, where that equals it in the first sector but for
/// the mark. Any other disk stays as it is.
///
/// The other sectors are written before the first one, so that a crash at any moment leaves what can be put back again.
pub fn put_back<D: Disk>(disk: &mut D) -> Result<(), Fault>
    requires open { D.opened disk.old ≡ Some Access.Write }
    ensures crash { EachCrash D.tells (D.history disk.old) (D.history disk.new) (IsPuttingBack (reads (D.history disk.old))) }
    ensures writes { Writes D.Disk (λ b _. b ≡ 16) disk.old disk.new }
    ensures written { IsTrue D.tells → OnOk result (reads (D.history disk.new) ≡ put_back (reads (D.history disk.old))) }
    ensures unwritten { IsTrue D.tells → is_half_turned (reads (D.history disk.old)) ≡ false → D.history disk.new ≡ D.history disk.old }
    ensures settled { IsTrue D.tells → IsSettled (D.history disk.old) → OnOk result (IsSettled (D.history disk.new)) }
    ensures cause { HasCause (D.faults disk.old) (D.faults disk.new) result }
{
    let found = find_before(disk)?;
    match found {
        None => Ok(()),
        Some(found) => {
            let first = with_first(&found.block, &found.before);
            turn_two(disk, &first, &found.before)
        }
    }
}

/// Block 16, and what it is to be again.
#[derive(Clone, Copy, Debug)]
pub(crate) struct FoundBefore {
    pub(crate) block: Block,
    pub(crate) before: Block,
}

/// What block 16 is to be again, where turning it was cut off.
fn find_before<S: BlockSource>(src: &mut S) -> Result<Option<FoundBefore>, Fault>
    ensures kept { S.kept src.old src.new }
    ensures found { OverTold S.tells (S.blocks src.old) (λ image. IfOk result (IsFoundBefore image)) }
    ensures room { IfOk result (λ found. is_some found ≡ true → 16 < S.size src.old) }
    ensures cause { HasCause (S.faults src.old) (S.faults src.new) result }
{
    let blocks = src.len();
    if blocks <= SUPER_BLOCK {
        return Ok(None);
    }
    let block = read_block(src, SUPER_BLOCK)?;
    if !names_copy(&block, blocks) {
        return Ok(None);
    }
    let before = read_block(src, marked_place(&block))?;
    if !is_half(&before, &block) {
        return Ok(None);
    }
    Ok(Some(FoundBefore { block, before }))
}
