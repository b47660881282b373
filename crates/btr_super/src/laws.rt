// What is written is read again: a law is the contract of a function that does nothing.
ghost use Rattle.btr_super.specs.Laws.{SupersReadBack, MirrorsRead};

/// The block of a superblock whose fields keep the rules of its place reads there as that superblock.
pub fn supers_read_back()
    ensures { SupersReadBack }
{}

/// The copy of a superblock that is read somewhere reads at its own place as the same superblock, with its own address.
pub fn mirrors_read()
    ensures { MirrorsRead }
{}
