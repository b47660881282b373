ghost use Rattle.std.specs.Prelude.{◌≡◌, ◌≢◌, ◌≤◌, IfErr};
ghost use Rattle.reiser_walk.specs.Answers.{IsTreeRefusal, IsTreeRule};
ghost use Rattle.reiser_walk.specs.Rules.{broken_rule};
ghost use Rattle.reiser_walk.specs.Walks.{Opens, level_of};
ghost use Rattle.reiser_bitmap.specs.refusals.declared.refusal.VolumeRefusal.TheVariants.{Damaged};

use crate::Walker;
use crate::hand::{NodeCursor, Step};
use reiser_bitmap::{Rule, VolumeRefusal};
use reiser_items::{Block, BlockNo, InnerView, LeafView, u16_at};

impl Walker {
    /// Empties the leaf in hand, whose block is to be read.
    pub(crate) fn await_block(&mut self, no: BlockNo)
        ensures tree { self.new.tree ≡ self.old.tree }
        ensures reached { self.new.reached ≡ self.old.reached }
        ensures start { self.new.at_start ≡ self.old.at_start }
        ensures path { self.new.path ≡ self.old.path }
        ensures last { self.new.last ≡ self.old.last }
        ensures spent { self.new.spent ≡ self.old.spent }
        ensures no { self.new.leaf.no ≡ no }
        ensures at { self.new.leaf.at ≡ record { next = 0; left = 0 } }
    {
        self.leaf.at = NodeCursor { next: 0, left: 0 };
        self.leaf.no = no;
    }

    /// Opens the node whose block was read: as a leaf, or as an inner node whose children come next.
    pub(crate) fn open(&mut self) -> Result<(), VolumeRefusal>
        requires done { self.old.leaf.at.left ≡ 0 }
        ensures tree { self.new.tree ≡ self.old.tree }
        ensures reached { self.new.reached ≡ self.old.reached }
        ensures spent { self.new.spent ≡ self.old.spent }
        ensures small { self.new.leaf.at.left ≤ 169 }
        ensures rules { IfErr result IsTreeRefusal }
        ensures opens { Opens self.old result self.new }
    {
        let level = self.level();
        if level == 1 {
            self.open_leaf()
        } else {
            self.open_inner(level)
        }
    }

    /// The level of the node that was taken.
    fn level(&self) -> u16
        ensures { result ≡ level_of self.now }
    {
        self.tree.height - 1 - self.path.len() as u16
    }

    fn open_leaf(&mut self) -> Result<(), VolumeRefusal>
        requires level { level_of self.old ≡ 1 }
        ensures tree { self.new.tree ≡ self.old.tree }
        ensures reached { self.new.reached ≡ self.old.reached }
        ensures spent { self.new.spent ≡ self.old.spent }
        ensures small { self.new.leaf.at.left ≤ 169 }
        ensures rules { IfErr result IsTreeRefusal }
        ensures opens { Opens self.old result self.new }
    {
        let Some(leaf) = LeafView::read(&self.leaf.block) else {
            return Err(off_grammar(self.leaf.no, &self.leaf.block, 1));
        };
        let left = leaf.count();
        self.leaf.at = NodeCursor { next: 0, left };
        Ok(())
    }

    fn open_inner(&mut self, level: u16) -> Result<(), VolumeRefusal>
        requires done { self.old.leaf.at.left ≡ 0 }
        requires level { level_of self.old ≡ level }
        requires inner { level ≢ 1 }
        ensures tree { self.new.tree ≡ self.old.tree }
        ensures reached { self.new.reached ≡ self.old.reached }
        ensures spent { self.new.spent ≡ self.old.spent }
        ensures leaf { self.new.leaf ≡ self.old.leaf }
        ensures rules { IfErr result IsTreeRefusal }
        ensures opens { Opens self.old result self.new }
    {
        let Some(node) = InnerView::read(&self.leaf.block, level) else {
            return Err(off_grammar(self.leaf.no, &self.leaf.block, level));
        };
        let left = node.count();
        self.path.push_reserved(Step {
            no: self.leaf.no,
            block: self.leaf.block,
            at: NodeCursor { next: 0, left },
        });
        Ok(())
    }
}

/// What is wrong with a block that is off the grammar of the level.
fn off_grammar(block: BlockNo, bytes: &Block, level: u16) -> VolumeRefusal
    ensures refusal { result ≡ Damaged block (broken_rule level bytes.now.bytes) }
    ensures rules { IsTreeRefusal result }
{
    VolumeRefusal::Damaged {
        block,
        rule: broken_rule(bytes, level),
    }
}

fn broken_rule(block: &Block, level: u16) -> Rule
    ensures rule { result ≡ broken_rule level block.now.bytes }
    ensures of_tree { IsTreeRule result }
{
    if u16_at(&block.bytes, 0) == level && u16_at(&block.bytes, 2) > 0 {
        Rule::Layout
    } else {
        Rule::NodeHead
    }
}
