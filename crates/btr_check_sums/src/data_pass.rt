// The checksums of the checksum tree, one after the other.
ghost use Rattle.std.specs.Prelude.{◌≡◌, ◌<◌, ◌+◌, ◌*◌, ◌/◌, ◌^◌, ◌++◌, ◌∷◌, [], ℕ, List, take, drop, length, All, IfErr, IfOk, MatchResult, OnOk};
ghost use Rattle.btr_check_rules.specs.Sums.{sum_count};
ghost use Rattle.btr_check_rules.specs.btr_reader.btr_keys.declared.key.Key.{Key as KeyOf};
ghost use Rattle.btr_check_rules.specs.btr_reader.btr_node.Leaf.{Item};
ghost use Rattle.btr_check_rules.specs.btr_reader.btr_reader_walk.Map.{place};
ghost use Rattle.btr_check_rules.specs.btr_reader.btr_reader_walk.Walks.{LieOn};
ghost use Rattle.btr_check_rules.specs.btr_reader.btr_reader_walk.declared.map.MapRange.{MapRange as RangeOf};
ghost use Rattle.btr_check_rules.specs.btr_reader.csum_kinds.Kind.{kind_width};
ghost use Rattle.btr_check_rules.specs.btr_reader.outside.Fault.{HasCauseOf};
ghost use Rattle.btr_check_rules.specs.btr_reader.outside.History.{Image, OverTold};
ghost use Rattle.btr_check_walk.specs.Parts.{IsPartAnswer, TellsPart};
ghost use Rattle.btr_check_sums.specs.DataSums.{BreaksSums, HoldsDue, HoldsFirst, IsReady, due_sum, sum_address, told_sum};

use crate::due_sum::{DataPass, DueSum};
use crate::hand::find_place;
use crate::sum_items::sum_count;
use btr_check_rules::btr_reader::btr_reader_walk::{BlockSource, MapRange, Memory, SumKind};
use btr_check_walk::Answer;
use csum_kinds::kind_width;
use std::alloc::Global;

/// How many checksums are gathered before their blocks are read: those of 64 MiB.
const WINDOW: usize = 1 << 14;

/// A checksum that is told of the block at a place of the device, in bytes, which has this address.
fn due_at(kind: SumKind, address: u128, place: u128, told: &[u8]) -> DueSum
    requires told { length told.now ≡ kind_width kind }
    requires address { address < 2 ^ 64 }
    requires place { place < 2 ^ 76 }
    ensures address { result.address ≡ address }
    ensures block { result.block ≡ place / 4096 }
    ensures sum { due_sum kind result ≡ told.now }
{
    let mut sum = [0; 32];
    sum[..told.len()].copy_from_slice(told);
    DueSum {
        block: (place / 4096) as u64,
        address: address as u64,
        sum,
    }
}

/// Checksum number `k` of a body, counted from 0.
fn told_at(kind: SumKind, body: &[u8], k: usize) -> &[u8]
    requires { k < length body.now / kind_width kind }
    ensures sum { result.now ≡ take (kind_width kind) (drop (kind_width kind * k) body.now) }
    ensures long { length result.now ≡ kind_width kind }
{
    let width = kind_width(kind);
    let at = width * k;
    &body[at..at + width]
}

impl DataPass {
    /// No checksum was met. Memory is taken here for those that will be due.
    pub fn new(alloc: Global, kind: SumKind) -> Result<DataPass, Memory>
        ensures kind { IfOk result (λ pass. pass.kind ≡ kind) }
        ensures ready { IfOk result (λ pass. (size : ℕ) (ranges : List RangeOf) → IsReady size ranges pass) }
        ensures holds { IfOk result (λ pass. (image : Image) (ranges : List RangeOf) → HoldsDue image ranges kind [] pass.due.items) }
    {
        let mut due = Vec::new(alloc);
        due.reserve_exact(WINDOW)?;
        Ok(DataPass {
            kind,
            due,
            hand: None,
        })
    }

    /// Judges what is due where there is no room for one more.
    fn make_room<S: BlockSource>(&mut self, alloc: Global, src: &mut S) -> Result<(), Answer>
        requires inside { All (λ d. d.block < S.size src.old) self.old.due.items }
        ensures kept { S.kept src.old src.new }
        ensures cause { HasCauseOf Answer.Fault (S.faults src.old) (S.faults src.new) result }
        ensures answers { IfErr result IsPartAnswer }
        ensures kind { self.new.kind ≡ self.old.kind }
        ensures hand { self.new.hand ≡ self.old.hand }
        ensures inside { OnOk result (All (λ d. d.block < S.size src.old) self.new.due.items) }
        ensures holds { OverTold S.tells (S.blocks src.old) (λ image. (ranges : List RangeOf) (items : List Item) (i : Item) (count : ℕ) → HoldsFirst image ranges self.old.kind items i count self.old.due.items
            → MatchResult result (λ _. HoldsFirst image ranges self.old.kind items i count self.new.due.items) (TellsPart (BreaksSums image ranges self.old.kind (items ++ i ∷ [])))) }
    {
        if self.due.len() < WINDOW {
            return Ok(());
        }
        self.judge(alloc, src)
    }

    /// Adds one more that is due.
    fn add(&mut self, due: DueSum) -> Result<(), Memory>
        ensures added { OnOk result (self.new.due.items ≡ self.old.due.items ++ due ∷ []) }
        ensures kind { self.new.kind ≡ self.old.kind }
        ensures hand { self.new.hand ≡ self.old.hand }
    {
        self.due.push(due)?;
        Ok(())
    }

    /// Notes the checksum that is told of the block at an address, if that lies in a range.
    fn note_sum<S: BlockSource>(
        &mut self,
        alloc: Global,
        src: &mut S,
        ranges: &[MapRange],
        address: u128,
        told: &[u8],
    ) -> Result<(), Answer>
        requires lying { LieOn (S.size src.old) ranges.now }
        requires ready { IsReady (S.size src.old) ranges.now self.old }
        requires told { length told.now ≡ kind_width self.old.kind }
        ensures kept { S.kept src.old src.new }
        ensures cause { HasCauseOf Answer.Fault (S.faults src.old) (S.faults src.new) result }
        ensures answers { IfErr result IsPartAnswer }
        ensures kind { self.new.kind ≡ self.old.kind }
        ensures ready { OnOk result (IsReady (S.size src.old) ranges.now self.new) }
        ensures holds { OverTold S.tells (S.blocks src.old) (λ image. (items : List Item) (i : Item) (k : ℕ) → HoldsFirst image ranges.now self.old.kind items i k self.old.due.items
            → k < sum_count self.old.kind i → address ≡ sum_address i k → told.now ≡ told_sum self.old.kind i k
            → MatchResult result (λ _. HoldsFirst image ranges.now self.old.kind items i (k + 1) self.new.due.items) (TellsPart (BreaksSums image ranges.now self.old.kind (items ++ i ∷ [])))) }
    {
        if address > u64::MAX as u128 {
            return Ok(());
        }
        let Some(place) = find_place(&mut self.hand, ranges, address) else {
            return Ok(());
        };
        self.make_room(alloc, src)?;
        self.add(due_at(self.kind, address, place, told))?;
        Ok(())
    }

    /// Notes the checksums of an item, whose first block has this address, in bytes.
    pub fn note_item<S: BlockSource>(
        &mut self,
        alloc: Global,
        src: &mut S,
        ranges: &[MapRange],
        address: u64,
        body: &[u8],
    ) -> Result<(), Answer>
        requires lying { LieOn (S.size src.old) ranges.now }
        requires ready { IsReady (S.size src.old) ranges.now self.old }
        ensures kept { S.kept src.old src.new }
        ensures cause { HasCauseOf Answer.Fault (S.faults src.old) (S.faults src.new) result }
        ensures answers { IfErr result IsPartAnswer }
        ensures kind { self.new.kind ≡ self.old.kind }
        ensures ready { OnOk result (IsReady (S.size src.old) ranges.now self.new) }
        ensures holds { OverTold S.tells (S.blocks src.old) (λ image. (items : List Item) (key : KeyOf) → key.offset ≡ address → HoldsDue image ranges.now self.old.kind items self.old.due.items
            → MatchResult result (λ _. HoldsDue image ranges.now self.old.kind (items ++ (key, body.now) ∷ []) self.new.due.items) (TellsPart (BreaksSums image ranges.now self.old.kind (items ++ (key, body.now) ∷ [])))) }
    {
        for k in 0..sum_count(self.kind, body) {
            let told = told_at(self.kind, body, k);
            self.note_sum(alloc, src, ranges, address as u128 + 4096 * k as u128, told)?;
        }
        Ok(())
    }
}
