// Laws of the definitions, each the contract of a function that does nothing.
ghost use Rattle.reiser_volume_files.specs.Laws.{KeysOrderItems, ApartItemsFollow, NamedBlocksDecide, BlocksOfBytes, FileRunsSay, BlocksAreHeld, TargetsAreBytes, ItemsNameBlocks};

/// The items of one object, in the order of their keys, begin in order.
pub fn keys_order_items()
    ensures { KeysOrderItems }
{}

/// Items that begin in order and have no byte in common follow each other.
pub fn apart_items_follow()
    ensures { ApartItemsFollow }
{}

/// The bytes of a file are the same where the blocks that its items name below the size are.
pub fn named_blocks_decide()
    ensures { NamedBlocksDecide }
{}

/// The blocks that a mark is made of are the file blocks.
pub fn blocks_of_bytes()
    ensures { BlocksOfBytes }
{}

/// The map of a file says where each of its blocks lies, in runs that ascend and that are as long as may be.
pub fn file_runs_say()
    ensures { FileRunsSay }
{}

/// What a block of a file holds follows from where it lies: a block of the volume up to the size, direct items, or zeros
/// as a hole. It asks for items that have no byte in common, and whose pointers begin with a block.
pub fn blocks_are_held()
    ensures { BlocksAreHeld }
{}

/// Where no item names a block, what direct items hold of block 0 is the bytes of a file of at most 4096 bytes.
pub fn targets_are_bytes()
    ensures { TargetsAreBytes }
{}

/// The block that is named for a block of a file is a pointer of one of its items.
pub fn items_name_blocks()
    ensures { ItemsNameBlocks }
{}
