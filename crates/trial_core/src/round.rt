// A volume that is converted and rolled back.
ghost use Rattle.std.specs.Prelude.{◌≡◌, ◌≤◌, ◌<◌, ◌^◌, false, Some, IfErr, IsTrue, OnOk, length};
ghost use Rattle.std.specs.Result.{MatchResult};
ghost use Rattle.convert_core_laws.specs.going_back.Back.{GoesBack};
ghost use Rattle.btr_reader.specs.Parts.{ListsBtrfs};
ghost use Rattle.convert_core.specs.Converted.{IsConverted};
ghost use Rattle.reiser_bitmap.specs.outside.Fault.{HasCauseOf};
ghost use Rattle.reiser_bitmap.specs.outside.History.{Image, IsSettled, OverTold, reads};
ghost use Rattle.reiser_volume.specs.Volume.{IsAccepted, used_of};
ghost use Rattle.rollback_core.specs.RolledBack.{IsRolledBack};
ghost use Rattle.rollback_core.specs.volume_state.GoingBack.{CanGoBack};
ghost use Rattle.convert_core.specs.space_items.Laws.{AreIds};
ghost use Rattle.trial_core.specs.Answers.{IsTrialReadAnswer, IsRoundAnswer, LeavesRound, RefusesRound, StopsUnless};
ghost use Rattle.trial_core.specs.Round.{FreeAreBytes, IsKnownVolume, IsRound, IsTrialSummary, plain};
ghost use Rattle.trial_core.specs.Parts.{used_mark};
ghost use Rattle.first_sync.specs.Synced.{GoesOn, synced_now};
ghost use Rattle.super_turn.specs.PutBack.{is_half_turned};

use crate::answers::{changed, step_answer};
use crate::between::read_btrfs_rows;
use crate::known_volume::KnownVolume;
use crate::{TrialSummary, same_rows, summary_of};
use btr_reader::btrfs_rows_are_one;
use convert_core::Answer;
use convert_core::convert_options::Options;
use convert_core_laws::{converted_volumes_go_back, converted_volumes_open};
use reiser_bitmap::{Access, BlockSource, Disk, Ids};
use reiser_volume::refusals_break_rules;
use rollback_core::{in_order_has_format, refused_can_not_go_back};
use std::alloc::Global;

/// Converts the ReiserFS volume of a disk, which is accepted and of which block 16 is not half turned, and rolls it back. The rows before
/// and in between are compared, and so are the used blocks before and in the end.
///
/// Where the volume has too little space for a conversion, nothing was written, but the disk was synced.
pub fn go_round<D: Disk>(
    alloc: Global,
    ids: &Ids,
    now: u64,
    disk: &mut D,
) -> Result<TrialSummary, Answer>
    requires open { D.opened disk.old ≡ Some Access.Write }
    requires inside { 16 < D.size disk.old }
    requires moment { now < 2 ^ 63 }
    ensures open { D.opened disk.new ≡ D.opened disk.old }
    ensures size { D.size disk.new ≡ D.size disk.old }
    ensures grows { IsTrue D.tells → GoesOn (D.history disk.old) (D.history disk.new) }
    ensures told { OverTold D.tells (reads (D.history disk.old)) (λ image. IsAccepted image → is_half_turned image ≡ false →
        MatchResult result (λ told. IsRound ids.now now image (reads (D.history disk.new)) × IsTrialSummary image told) (RefusesRound image)) }
    ensures settled { IsTrue D.tells → OnOk result (IsSettled (D.history disk.new)) }
    ensures leaves { IsTrue D.tells → is_half_turned (reads (D.history disk.old)) ≡ false → IfErr result (LeavesRound (synced_now (D.history disk.old)) (D.history disk.new)) }
    ensures cause { HasCauseOf Answer.Fault (D.faults disk.old) (D.faults disk.new) result }
    ensures answers { IfErr result IsRoundAnswer }
{
    let known = KnownVolume::read(alloc, disk)?;
    go_there(alloc, &known, ids, now, disk)?;
    go_back(alloc, &known, disk)?;
    Ok(summary_of(&known.rows))
}

/// Converts the volume, and compares its rows.
fn go_there<D: Disk>(
    alloc: Global,
    known: &KnownVolume,
    ids: &Ids,
    now: u64,
    disk: &mut D,
) -> Result<(), Answer>
    requires open { D.opened disk.old ≡ Some Access.Write }
    requires inside { 16 < D.size disk.old }
    requires moment { now < 2 ^ 63 }
    ensures open { D.opened disk.new ≡ D.opened disk.old }
    ensures size { D.size disk.new ≡ D.size disk.old }
    ensures grows { IsTrue D.tells → GoesOn (D.history disk.old) (D.history disk.new) }
    ensures told { OverTold D.tells (reads (D.history disk.old)) (λ image. IsAccepted image → is_half_turned image ≡ false → IsKnownVolume image known.now →
        MatchResult result (λ _. IsConverted plain ids.now now image (reads (D.history disk.new)) × ListsBtrfs (reads (D.history disk.new)) known.now.rows × (FreeAreBytes image → GoesBack image (reads (D.history disk.new))))
        (RefusesRound image)) }
    ensures leaves { IsTrue D.tells → is_half_turned (reads (D.history disk.old)) ≡ false → IfErr result (LeavesRound (synced_now (D.history disk.old)) (D.history disk.new)) }
    ensures cause { HasCauseOf Answer.Fault (D.faults disk.old) (D.faults disk.new) result }
    ensures answers { IfErr result IsRoundAnswer }
{
    know_ids(*ids);
    converted_volumes_open();
    converted_volumes_go_back();
    convert(alloc, ids, now, disk)?;
    compare_rows(alloc, known, disk)
}

/// Identifiers have 16 bytes each. It does nothing: its caller learns it by the contract.
fn know_ids(ids: Ids)
    ensures { AreIds ids }
{
    let _value = ids;
}

/// Converts an accepted volume, with no option.
fn convert<D: Disk>(alloc: Global, ids: &Ids, now: u64, disk: &mut D) -> Result<(), Answer>
    requires open { D.opened disk.old ≡ Some Access.Write }
    requires moment { now < 2 ^ 63 }
    ensures open { D.opened disk.new ≡ D.opened disk.old }
    ensures size { D.size disk.new ≡ D.size disk.old }
    ensures grows { IsTrue D.tells → GoesOn (D.history disk.old) (D.history disk.new) }
    ensures told { OverTold D.tells (reads (D.history disk.old)) (λ image. IsAccepted image → is_half_turned image ≡ false →
        MatchResult result (λ _. IsConverted plain ids.now now image (reads (D.history disk.new))) (RefusesRound image)) }
    ensures leaves { IsTrue D.tells → is_half_turned (reads (D.history disk.old)) ≡ false → IfErr result (LeavesRound (synced_now (D.history disk.old)) (D.history disk.new)) }
    ensures cause { HasCauseOf Answer.Fault (D.faults disk.old) (D.faults disk.new) result }
    ensures answers { IfErr result IsRoundAnswer }
{
    refusals_break_rules();
    in_order_has_format();
    match convert_core::convert(alloc, disk, ids, now, &Options::plain()) {
        Ok(_) => Ok(()),
        Err(answer) => Err(step_answer(answer)),
    }
}

/// Compares the rows of the Btrfs volume with those of the volume before.
fn compare_rows<S: BlockSource>(
    alloc: Global,
    known: &KnownVolume,
    src: &mut S,
) -> Result<(), Answer>
    requires inside { 16 < S.size src.old }
    ensures kept { S.kept src.old src.new }
    ensures told { OverTold S.tells (S.blocks src.old) (λ between. MatchResult result (λ _. ListsBtrfs between known.now.rows) (StopsUnless (ListsBtrfs between known.now.rows))) }
    ensures cause { HasCauseOf Answer.Fault (S.faults src.old) (S.faults src.new) result }
    ensures answers { IfErr result IsTrialReadAnswer }
{
    btrfs_rows_are_one();
    let rows = read_btrfs_rows(alloc, src)?;
    if same_rows(&known.rows, &rows) {
        Ok(())
    } else {
        Err(changed())
    }
}

/// Rolls the volume back, and compares its used blocks.
fn go_back<D: Disk>(alloc: Global, known: &KnownVolume, disk: &mut D) -> Result<(), Answer>
    requires open { D.opened disk.old ≡ Some Access.Write }
    requires inside { length known.now.used ≤ D.size disk.old }
    ensures open { D.opened disk.new ≡ D.opened disk.old }
    ensures size { D.size disk.new ≡ D.size disk.old }
    ensures grows { IsTrue D.tells → GoesOn (D.history disk.old) (D.history disk.new) }
    ensures told { OverTold D.tells (reads (D.history disk.old)) (λ between. (image : Image) → IsKnownVolume image known.now → (FreeAreBytes image → GoesBack image between) →
        MatchResult result (λ _. IsRolledBack between (reads (D.history disk.new)) × (used_mark (used_of image) (reads (D.history disk.new)) ≡ used_mark (used_of image) image)) (RefusesRound image)) }
    ensures settled { IsTrue D.tells → OnOk result (IsSettled (D.history disk.new)) }
    ensures cause { HasCauseOf Answer.Fault (D.faults disk.old) (D.faults disk.new) result }
    ensures answers { IfErr result IsTrialReadAnswer }
{
    roll_back(alloc, disk)?;
    known.check_blocks(disk)
}

/// Rolls the volume back.
fn roll_back<D: Disk>(alloc: Global, disk: &mut D) -> Result<(), Answer>
    requires open { D.opened disk.old ≡ Some Access.Write }
    ensures open { D.opened disk.new ≡ D.opened disk.old }
    ensures size { D.size disk.new ≡ D.size disk.old }
    ensures grows { IsTrue D.tells → GoesOn (D.history disk.old) (D.history disk.new) }
    ensures told { OverTold D.tells (reads (D.history disk.old)) (λ between. MatchResult result (λ _. IsRolledBack between (reads (D.history disk.new))) (StopsUnless (CanGoBack between))) }
    ensures settled { IsTrue D.tells → OnOk result (IsSettled (D.history disk.new)) }
    ensures cause { HasCauseOf Answer.Fault (D.faults disk.old) (D.faults disk.new) result }
    ensures answers { IfErr result IsTrialReadAnswer }
{
    refused_can_not_go_back();
    match rollback_core::rollback(alloc, disk) {
        Ok(_) => Ok(()),
        Err(answer) => Err(step_answer(answer)),
    }
}
