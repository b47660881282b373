// Laws of the definitions, each the contract of a function that does nothing.
ghost use Rattle.btr_check_rules.specs.FreeSpace.{WrittenFreeSpaceIsKept};

/// A volume whose free space tree has the items that tell the free space of its block groups (`TellsFreeSpace`) keeps
/// part 10.
pub fn written_free_space_is_kept()
    ensures { WrittenFreeSpaceIsKept }
{}
