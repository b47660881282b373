// What is done with the items of a tree.
ghost use Rattle.std.specs.Prelude.{◌≡◌, ◌++◌, ◌∷◌, [], ℕ, List, IfErr, MatchResult};
ghost use Rattle.btr_check_rules.specs.btr_reader.btr_reader_walk.Events.{TreeItem, in_leaf};
ghost use Rattle.btr_check_walk.specs.Parts.{IsVisitAnswer, TellsPart};
ghost use Rattle.btr_check_walk.specs.Walks.{InOrder};

use btr_check_rules::btr_reader::btr_reader_walk::Key;
use command_answers::Answer;
use std::alloc::Global;

/// What is done with the items of a tree, one after the other, and what it answers where one of them breaks a rule.
pub trait ItemVisitor {
    /// What it holds once it was given these items, where it began as the first.
    ghost holds: { Self → Self → List TreeItem → Type 0 };

    /// What it tells by a part and an address, where it began so and was given these items, the last of them just now.
    ghost refuses: { Self → List TreeItem → ℕ → ℕ → Type 0 };

    /// Takes the next item, which stands in the leaf at this address in bytes. The keys ascend up to it.
    fn visit(&mut self, alloc: Global, key: &Key, body: &[u8], leaf: u64) -> Result<(), Answer>
        ensures visited { (begun : Self) (items : List TreeItem) → holds begun self.old items → InOrder (items ++ in_leaf leaf (key.now, body.now) ∷ [])
            → MatchResult result (λ _. holds begun self.new (items ++ in_leaf leaf (key.now, body.now) ∷ [])) (TellsPart (refuses begun (items ++ in_leaf leaf (key.now, body.now) ∷ []))) }
        ensures answers { IfErr result IsVisitAnswer };
}
