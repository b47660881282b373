ghost use Rattle.std.specs.Prelude.{◌≡◌};
ghost use Rattle.btr_reader_walk.specs.refusals.declared.answer.BtrAnswer.TheVariants.{Refused};
ghost use Rattle.btr_reader_walk.specs.refusals.declared.refusal.BtrRefusal.TheVariants.{BadBtrfs};

use btr_reader_walk::{BtrAnswer, BtrRefusal, BtrRule};

/// What is answered where the node at an address breaks a rule.
pub fn refused(address: u64, rule: BtrRule) -> BtrAnswer
    ensures { result ≡ Refused (BadBtrfs address rule) }
{
    BtrAnswer::Refused(BtrRefusal::BadBtrfs { address, rule })
}
