// Laws of the definitions, each the contract of a function that does nothing.
ghost use Rattle.rollback_core.specs.RecoveryLaws.{InOrderHasFormat, RecoversWhatIsInOrder, RecoveryCounts, RecoveryGoesOn, RecoveryKeeps, RecoveryMends, RecoveryOpens, RecoveryStays};

/// A disk that was recovered stays as it is when it is recovered again, and nothing is written. After a crash of a recovery
/// another one ends as the first would have.
pub fn recovery_stays()
    ensures { RecoveryStays }
{}

/// After a crash at any moment of a recovery another one can follow: what is left is in order where the disk was.
pub fn recovery_goes_on()
    ensures { RecoveryGoesOn }
{}

/// What a recovery makes, or a crash of it at any moment leaves, has the same format, and no block differs but those of copies. A
/// ReiserFS volume has the same used blocks, so that an accepted one has the same rows.
pub fn recovery_keeps()
    ensures { RecoveryKeeps }
{}

/// What stands in the blocks of copies after a recovery, in the words of a conversion.
pub fn recovery_mends()
    ensures { RecoveryMends }
{}

/// A disk whose superblock keeps its rules, of a ReiserFS volume also its journal and bitmap, is not refused: only a call may fail,
/// or memory be short for a ReiserFS volume's bitmap.
pub fn recovers_what_is_in_order()
    ensures { RecoversWhatIsInOrder }
{}

/// A ReiserFS volume whose superblock, journal and bitmap keep their rules has the format of ReiserFS by block 16, and a Btrfs volume
/// whose superblock does that of Btrfs. So each of them can be recovered, and no disk holds both.
pub fn in_order_has_format()
    ensures { InOrderHasFormat }
{}

/// The blocks that a recovery counts are those that differ before and after it.
pub fn recovery_counts()
    ensures { RecoveryCounts }
{}

/// A disk whose volume can be opened can be recovered, and what a recovery makes of it, or a crash of one at any moment leaves, can be
/// opened as the same format with the same rows.
pub fn recovery_opens()
    ensures { RecoveryOpens }
{}
