ghost use Rattle.std.specs.Prelude.{◌≡◌, ◌≤◌, ℕ, List, Bool, IsTrue, IfOk};
ghost use Rattle.std.specs.Result.{MatchResult};
ghost use Rattle.btr_tree.specs.outside.Fault.{HasCauseOf};
ghost use Rattle.btr_tree.specs.outside.History.{Image, OverTold};
ghost use Rattle.btr_tree.specs.btr_node.Leaf.{Item};
ghost use Rattle.btr_tree_writer.specs.Answers.{IsSourceFailure};
ghost use Rattle.btr_tree_writer.specs.Source.{ComesTo, SameWhere};

use btr_tree::{BlockSource, Key, VolAnswer};

/// Items of a tree, one after the other.
///
/// They may be read off a disk, whose blocks stay as they are where they are needed.
pub trait ItemSource {
    /// The items that are still to come, over these blocks.
    ghost ahead: { Self → Image → List Item };

    /// These are the blocks that it goes over.
    ghost fits: { Self → Image → Type 0 };

    /// A block of those from which the items are made.
    ghost needs: { Self → ℕ → Type 0 };

    /// It may be asked for the next item.
    ghost is_live: { Self → Type 0 };

    /// How many blocks a source has that it may be asked with.
    ghost reach: { Self → ℕ };

    /// This is the item that stands.
    ghost stands: { Self → Item → Type 0 };

    /// Some item stands.
    ghost has_item: { Self → Type 0 };

    /// Goes to the next item, which stands then; false after the last one. After an error no more is to be asked of it.
    fn advance<S: BlockSource>(&mut self, src: &mut S) -> Result<bool, VolAnswer>
        requires live { is_live self.old }
        requires inside { reach self.old ≤ S.size src.old }
        ensures kept { S.kept src.old src.new }
        ensures cause { HasCauseOf VolAnswer.Fault (S.faults src.old) (S.faults src.new) result }
        ensures live { IfOk result (λ _. is_live self.new) }
        ensures reach { reach self.new ≡ reach self.old }
        ensures needs { (b : ℕ) → needs self.new b → needs self.old b }
        ensures has_item { IfOk result (λ more. IsTrue more → has_item self.new) }
        ensures next { OverTold S.tells (S.blocks src.old) (λ image. fits self.old image
            → MatchResult result (λ more. fits self.new image × ComesTo stands more (ahead self.old image) self.new (ahead self.new image)) IsSourceFailure) };

    /// The key of the item that stands.
    fn key(&self) -> Key
        requires { has_item self.now }
        ensures { (item : Item) → stands self.now item → result ≡ item.0 };

    /// The body of the item that stands.
    fn body(&self) -> &[u8]
        requires { has_item self.now }
        ensures { (item : Item) → stands self.now item → result.now ≡ item.1 };

    /// Other blocks may be written meanwhile.
    ghost stays: { (s : Self) (image other : Image) → SameWhere (needs s) image other → fits s image → fits s other × (ahead s other ≡ ahead s image) };
}
