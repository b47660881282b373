// Laws of the definitions, each the contract of a function that does nothing.
ghost use Rattle.extent_pieces.specs.Laws.{CountedPiecesFit, CountsAreSmall, KeptPiecesAreMaximal, OwnersAreNamed, PiecesCoverUsed, PlacesAreApart, PlansHaveRoom};

/// Kept pieces are used blocks without reserved ones that cross no multiple of 32768 and that have no owner, or lie in one
/// file one after the other. Each is as long as may be, and each such block is in exactly one.
pub fn kept_pieces_are_maximal()
    ensures { KeptPiecesAreMaximal }
{}

/// The kept and the copied pieces hold each used block once, and no other block. A piece has the owner of its blocks, one
/// after the other.
pub fn pieces_cover_used()
    ensures { PiecesCoverUsed }
{}

/// The owner of a block is the inode of the one named file whose items name the block.
pub fn owners_are_named()
    ensures { OwnersAreNamed }
{}

/// What is counted of an accepted volume is so small that the space for a conversion can be counted.
pub fn counts_are_small()
    ensures { CountsAreSmall }
{}

/// A plan for the space that the pieces of a volume need has room for its copies and tails.
pub fn plans_have_room()
    ensures { PlansHaveRoom }
{}

/// Once they have their places, no two pieces overlap, all lie on the volume, and copies and tails lie in the plan's data
/// units.
pub fn places_are_apart()
    ensures { PlacesAreApart }
{}

/// The data units of a plan for what was counted have room for the pieces that are not kept, whatever the source gave.
pub fn counted_pieces_fit()
    ensures { CountedPiecesFit }
{}
