// The division of the used blocks that stay where they are.
ghost use Rattle.std.specs.Prelude.{◌≡◌, ◌≤◌, ◌<◌, ◌+◌, ◌++◌, true, not, length, OnOk};
ghost use Rattle.unit_plan.specs.Choice.{is_data};
ghost use Rattle.reiser_bitmap.specs.Next.{end_of_run};
ghost use Rattle.extent_pieces.specs.Owned.{TellOwners};
ghost use Rattle.extent_pieces.specs.Pieces.{Owners, is_joined, kept_piece, kept_pieces};

use crate::copies::next_reserved;
use crate::owned::{owner_end, owner_of};
use crate::run::OwnedRun;
use reiser_bitmap::{Bitmap, BlockNo, Memory, is_reserved};
use unit_plan::Piece;

/// No piece crosses a multiple of so many blocks.
const CUT: u64 = 32768;

/// Appends the kept pieces, ascending: the longest runs of used blocks without reserved ones that cross no multiple of
/// 32768 and have no owner, or lie in one file one after the other.
pub fn add_kept(items: &mut Vec<Piece>, map: &Bitmap, owned: &[OwnedRun]) -> Result<(), Memory>
    ensures { (owner : Owners) → TellOwners owned.now owner → OnOk result (items.new.items ≡ items.old.items ++ kept_pieces map.now owner) }
{
    let mut b = next_data(map, 0);
    while b < map.len() {
        let piece = kept_piece(map, owned, b);
        items.push(piece)?;
        b = next_data(map, b + piece.count);
    }
    Ok(())
}

/// How many kept pieces there are, so that memory is taken once. Their number is at most that of the blocks.
pub fn count_kept(map: &Bitmap, owned: &[OwnedRun]) -> usize
    ensures { result ≤ length map.now }
{
    let mut count = 0;
    let mut b = next_data(map, 0);
    while b < map.len() {
        count += 1;
        b = next_data(map, b + kept_piece(map, owned, b).count);
    }
    count
}

/// The first block from `from` on that is used and not reserved; the number of blocks where there is none.
fn next_data(map: &Bitmap, from: BlockNo) -> BlockNo
    requires { from ≤ length map.now }
    ensures { result ≡ end_of_run (λ b. not (is_data map.now b)) from (length map.now) }
{
    let mut b = map.next_used(from, map.len());
    while b < map.len() && is_reserved(b, map.len()) {
        b = map.next_used(b + 1, map.len());
    }
    b
}

/// The kept piece that begins at block `b`.
fn kept_piece(map: &Bitmap, owned: &[OwnedRun], b: BlockNo) -> Piece
    requires data { is_data map.now b ≡ true }
    ensures some { 0 < result.count }
    ensures inside { b + result.count ≤ length map.now }
    ensures exact { (owner : Owners) → TellOwners owned.now owner → result ≡ kept_piece map.now owner b }
{
    Piece {
        from: Some(b),
        count: kept_end(map, owned, b) - b,
        owner: owner_of(owned, b),
        place: b,
    }
}

/// Where the kept piece that begins at block `b` ends.
fn kept_end(map: &Bitmap, owned: &[OwnedRun], b: BlockNo) -> BlockNo
    requires data { is_data map.now b ≡ true }
    ensures some { b < result }
    ensures inside { result ≤ length map.now }
    ensures exact { (owner : Owners) → TellOwners owned.now owner → result ≡ end_of_run (is_joined map.now owner b) b (length map.now) }
{
    let cut = CUT.saturating_mul(b / CUT + 1);
    let end = cut.min(next_reserved(b, map.len()));
    map.next_unused(b, owner_end(owned, b, end))
}
