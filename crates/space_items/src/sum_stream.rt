ghost use Rattle.std.specs.Prelude.{◌≡◌, ◌≤◌, ◌<◌, ◌+◌, ◌*◌, ◌^◌, ◌++◌, false, is_err, length, take, All, IfOk, OnOk};
ghost use Rattle.std.specs.List.{flat_map, range_with_len};
ghost use Rattle.btr_tree.specs.outside.Fault.{HasCause};
ghost use Rattle.btr_tree.specs.outside.History.{Image, OverTold};
ghost use Rattle.btr_tree.specs.csum_kinds.Kind.{kind_sum, kind_width};
ghost use Rattle.unit_plan.specs.Sums.{sums_in_item};
ghost use Rattle.space_items.specs.Stream.{ArePieces, FitsSums, IsSmallPiece, sums_ahead};
ghost use Rattle.space_items.specs.Sums.{block_sum, sum_items, sums_item};

use btr_item_list::key_of;
use btr_space_items::btrfs_format::key::EXTENT_CSUM;
use btr_space_items::btrfs_format::object::EXTENT_CSUM_OBJECTID;
use btr_tree::{Block, BlockSource, Fault, Key, Memory, SumKind, kind_sum, kind_width};
use std::alloc::Global;
use unit_plan::{Piece, PieceList, sums_in_item};

/// The items of the checksum tree, one after the other, ascending by key.
///
/// It holds its place and the item that stands. The pieces are passed to each call, the same as at its making.
#[derive(Drop)]
pub struct SumStream {
    sums: SumKind,
    piece: usize,
    done: u64,
    key: Key,
    /// Room for the checksums of an item, and how many bytes of it are used.
    bytes: Vec<u8>,
    length: usize,
    spent: bool,
}

/// The items of the checksum tree of pieces that were placed. Its calls take no memory.
pub fn checksums<P: PieceList>(
    alloc: Global,
    _pieces: &P,
    sums: SumKind,
) -> Result<SumStream, Memory>
    requires { ArePieces (P.pieces _pieces.now) }
    ensures fits { IfOk result (λ s. FitsSums s (P.pieces _pieces.now)) }
    ensures live { IfOk result (λ s. s.spent ≡ false) }
    ensures all { IfOk result (λ s. (image : Image) → sums_ahead s (P.pieces _pieces.now) image ≡ sum_items sums image (P.pieces _pieces.now)) }
{
    Ok(SumStream {
        sums,
        piece: 0,
        done: 0,
        key: key_of(0, 0, 0),
        bytes: room_for(alloc, sums)?,
        length: 0,
        spent: false,
    })
}

/// Room for the most checksums that an item has.
fn room_for(alloc: Global, sums: SumKind) -> Result<Vec<u8>, Memory>
    ensures { IfOk result (λ room. length room.items ≡ kind_width sums * sums_in_item sums) }
{
    let mut room = Vec::new(alloc);
    room.resize(kind_width(sums) * sums_in_item(sums) as usize, 0)?;
    Ok(room)
}

/// Puts the checksum of a block into a body from byte `at` on.
fn put_sum(body: &mut Vec<u8>, at: usize, sums: SumKind, block: &Block)
    requires { at + kind_width sums ≤ length body.old.items }
    ensures long { length body.new.items ≡ length body.old.items }
    ensures sum { take (at + kind_width sums) body.new.items ≡ take at body.old.items ++ take (kind_width sums) (kind_sum sums block.now.bytes) }
{
    let width = kind_width(sums);
    let sum = kind_sum(sums, &block.bytes);
    body[at..at + width].copy_from_slice(&sum[..width]);
}

impl SumStream {
    ghost use Rattle.space_items.specs.Stream.{ComesTo, IsAsBefore, IsPieceTaken, sum_standing, blocks_taken};

    /// Goes to the next item, which stands then; false after the last one. After an error it is spent.
    pub fn advance<S: BlockSource, P: PieceList>(
        &mut self,
        src: &mut S,
        pieces: &P,
    ) -> Result<bool, Fault>
        requires live { self.old.spent ≡ false }
        requires fits { FitsSums self.old (P.pieces pieces.now) }
        requires inside { All (λ p. p.place + p.count ≤ S.size src.old) (P.pieces pieces.now) }
        ensures kept { S.kept src.old src.new }
        ensures cause { HasCause (S.faults src.old) (S.faults src.new) result }
        ensures spent { self.new.spent ≡ is_err result }
        ensures fits { OnOk result (FitsSums self.new (P.pieces pieces.now)) }
        ensures next { OverTold S.tells (S.blocks src.old) (λ image. IfOk result (λ more. ComesTo more (sums_ahead self.old (P.pieces pieces.now) image) (sum_standing self.new) (sums_ahead self.new (P.pieces pieces.now) image))) }
    {
        if self.piece >= pieces.len() {
            return Ok(false);
        }
        let piece = *pieces.get(self.piece);
        let answer = self.take(src, piece);
        self.spent = answer.is_err();
        answer?;
        Ok(true)
    }

    /// Makes the next item of a piece.
    fn take<S: BlockSource>(&mut self, src: &mut S, piece: Piece) -> Result<(), Fault>
        requires small { IsSmallPiece piece }
        requires some { self.old.done < piece.count }
        requires next { self.old.piece + 1 < 2 ^ 64 }
        requires wide { length self.old.bytes.items ≡ kind_width self.old.sums * sums_in_item self.old.sums }
        requires inside { piece.place + piece.count ≤ S.size src.old }
        ensures kept { S.kept src.old src.new }
        ensures cause { HasCause (S.faults src.old) (S.faults src.new) result }
        ensures spent { self.new.spent ≡ self.old.spent }
        ensures taken { OnOk result (IsPieceTaken self.old self.new piece) }
        ensures stands { OverTold S.tells (S.blocks src.old) (λ image. OnOk result (sum_standing self.new ≡ sums_item self.old.sums image (piece.place + self.old.done) (blocks_taken self.old piece))) }
    {
        let first = piece.place + self.done;
        let count = (piece.count - self.done).min(sums_in_item(self.sums));
        self.fill(src, first, count)?;
        self.key = key_of(EXTENT_CSUM_OBJECTID, EXTENT_CSUM, 4096 * first);
        self.done += count;
        if self.done == piece.count {
            self.piece += 1;
            self.done = 0;
        }
        Ok(())
    }

    /// Puts the checksums of so many blocks into the body.
    fn fill<S: BlockSource>(&mut self, src: &mut S, first: u64, count: u64) -> Result<(), Fault>
        requires room { kind_width self.old.sums * count ≤ length self.old.bytes.items }
        requires inside { first + count ≤ S.size src.old }
        requires small { first + count < 2 ^ 64 }
        ensures kept { S.kept src.old src.new }
        ensures cause { HasCause (S.faults src.old) (S.faults src.new) result }
        ensures still { IsAsBefore self.old self.new }
        ensures length { OnOk result (self.new.length ≡ kind_width self.old.sums * count) }
        ensures sums { OverTold S.tells (S.blocks src.old) (λ image. OnOk result (take self.new.length self.new.bytes.items ≡ flat_map (block_sum self.old.sums image) (range_with_len first count))) }
    {
        let width = kind_width(self.sums);
        let mut block = Block::zero();
        let mut length = 0;
        for b in first..first + count {
            src.read(b, &mut block)?;
            put_sum(&mut self.bytes, length, self.sums, &block);
            length += width;
        }
        self.length = length;
        Ok(())
    }

    /// The key of the item that stands.
    pub fn key(&self) -> Key
        ensures { result ≡ (sum_standing self.now).0 }
    {
        self.key
    }

    /// The body of the item that stands.
    pub fn body(&self) -> &[u8]
        requires { self.now.length ≤ length self.now.bytes.items }
        ensures { result.now ≡ (sum_standing self.now).1 }
    {
        &self.bytes[..self.length]
    }

    /// Whether an error was answered.
    pub fn spent(&self) -> bool
        ensures { result ≡ self.now.spent }
    {
        self.spent
    }
}
