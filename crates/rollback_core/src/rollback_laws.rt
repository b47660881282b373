// Laws of the definitions, each the contract of a function that does nothing.
ghost use Rattle.rollback_core.specs.RollbackLaws.{RecoveryRollsBack, RefusedCanNotGoBack, RollbackGoesOn, RollbackKeeps, WritingRollsBack};

/// What a crash of a rollback leaves is a Btrfs volume with the same rows and the same image, which can be rolled back; or the volume in
/// that image, accepted and with its rows.
pub fn rollback_keeps()
    ensures { RollbackKeeps }
{}

/// After a crash that left the Btrfs volume another rollback ends as the first one would have.
pub fn rollback_goes_on()
    ensures { RollbackGoesOn }
{}

/// A volume that can be rolled back is not refused.
pub fn refused_can_not_go_back()
    ensures { RefusedCanNotGoBack }
{}

/// What is prepared and written makes of a disk what is said of a rollback.
pub fn writing_rolls_back()
    ensures { WritingRollsBack }
{}

/// After a crash of a rollback that left the old volume, half turned or not, recoveries leave that volume, whatever crashes cut them off.
pub fn recovery_rolls_back()
    ensures { RecoveryRollsBack }
{}
