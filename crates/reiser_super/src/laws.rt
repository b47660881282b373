// Laws of the definitions, each the contract of a function that does nothing.
ghost use Rattle.reiser_super.specs.Laws.{CleanIsNotRefused, LogDecidesJournal};

/// A superblock is not refused exactly where it is that of a clean volume.
pub fn clean_is_not_refused()
    ensures { CleanIsNotRefused }
{}

/// Which transactions wait depends on the blocks of the log and on its header alone.
pub fn log_decides_journal()
    ensures { LogDecidesJournal }
{}
