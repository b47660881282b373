// What the choices of a crash give, each law the contract of a function that does nothing.
ghost use Rattle.outside_mem.specs.Laws.{ChoiceDecidesEachBlock, ChoiceDecidesEachSector, EveryChoiceIsACrash, EveryCrashHasAChoice, EveryTornChoiceIsACrash, EveryTornCrashHasAChoice};

/// By a choice the i-th of the blocks that wait, in ascending order, has the value of the i-th number modulo the number
/// of its values, where a missing number is 0; and each other block is as at the last sync.
pub fn choice_decides_each_block()
    ensures { ChoiceDecidesEachBlock }
{}

/// For each choice there comes an image that a crash may leave.
pub fn every_choice_is_a_crash()
    ensures { EveryChoiceIsACrash }
{}

/// Each image that a crash may leave with each block whole comes for a choice of numbers below 2^32, as long as no block has
/// more values.
pub fn every_crash_has_a_choice()
    ensures { EveryCrashHasAChoice }
{}

/// Where blocks are torn, the i-th of those that wait has in sector s what the value has there whose number is the s-th of
/// the i-th eight; and each other block is as at the last sync.
pub fn choice_decides_each_sector()
    ensures { ChoiceDecidesEachSector }
{}

/// For each choice of eight numbers a block there comes an image that a crash may leave.
pub fn every_torn_choice_is_a_crash()
    ensures { EveryTornChoiceIsACrash }
{}

/// Each image that a crash may leave comes for a choice of eight numbers below 2^32 for each block that waits, as long as no
/// block has more values.
pub fn every_torn_crash_has_a_choice()
    ensures { EveryTornCrashHasAChoice }
{}
