// Laws of the definitions, each the contract of a function that does nothing.
ghost use Rattle.reiser_walk.specs.Laws.{SoundTreesKeepRules};
ghost use Rattle.reiser_walk.specs.Walks.{WalksAreFirstParts};

/// Nothing is wrong with a tree exactly where each rule holds over the whole of its visits, its items and the blocks that
/// are reached.
pub fn sound_trees_keep_rules()
    ensures { SoundTreesKeepRules }
{}

/// The items that a walker has given are the first of the tree, and the blocks that it has marked are those of the first
/// pointers of the tree.
pub fn walks_are_first_parts()
    ensures { WalksAreFirstParts }
{}
