// Laws of superblocks that are turned, each the contract of a function that does nothing.
ghost use Rattle.super_turn.specs.Laws.{HalfTurnedIsPutBack, PutBackKeeps};

/// A superblock that is half turned, and of which a copy lies where its mark says, is put back.
pub fn half_turned_is_put_back()
    ensures { HalfTurnedIsPutBack }
{}

/// What is put back has the same in all other blocks, and in block 16 the same format and the same first 128 bytes.
pub fn put_back_keeps()
    ensures { PutBackKeeps }
{}
