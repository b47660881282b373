// Laws of commands that begin with a sync, each the contract of a function that does nothing.
ghost use Rattle.first_sync.specs.Laws.{FirstSyncParts};

/// A crash of a command that begins with a sync leaves what a crash before it could have left, or it came since that sync succeeded. Where
/// the disk was settled, the former is what reads gave.
pub fn first_sync_parts()
    ensures { FirstSyncParts }
{}
