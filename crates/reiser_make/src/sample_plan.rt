ghost use Rattle.std.specs.Prelude.{◌≡◌, ◌≤◌, ◌<◌, ◌+◌, length, IfOk};
ghost use Rattle.reiser_make.specs.Inner.{level_nodes, nodes_below, root_level, node_place, total, needed};
ghost use Rattle.reiser_make.specs.Leaf.{leaves};
ghost use Rattle.reiser_make.specs.Levels.{level_of};
ghost use Rattle.reiser_make.specs.Shape.{shape};

use crate::level::Level;
use crate::place::place;
use crate::sample::Sample;
use fs_rows::Memory;
use std::alloc::Global;

/// A sample, and how many leaves its items take.
#[derive(Drop)]
pub struct SamplePlan {
    /// What the sample holds.
    pub sample: Sample,
    /// How many leaves its tree has.
    pub leaf_count: u32,
    ghost counted: { leaf_count ≡ length (leaves sample) },
    ghost some: { 1 ≤ leaf_count },
    ghost most: { leaf_count ≤ 12123 },
}

impl SamplePlan {
    /// The plan of the sample of a number; its items have version 0 if it is old.
    pub fn new(alloc: Global, number: u32, old: bool) -> Result<SamplePlan, Memory>
        requires { number ≤ 4000 }
        ensures { IfOk result (λ plan. plan.sample ≡ shape number old) }
    {
        let sample = Sample::new(alloc, number, old)?;
        let leaf_count = sample.count_leaves();
        Ok(SamplePlan { sample, leaf_count })
    }

    /// Where node `m` of a level goes: behind the data blocks and the levels below.
    pub fn node_place(&self, level: &Level, m: u32) -> u32
        requires level { level.now ≡ level_of self.now.leaf_count level.now.number }
        requires number { level.now.number ≤ 4 }
        requires node { m ≤ 12123 }
        ensures place { result ≡ node_place self.now.sample level.now.number m }
        ensures most { result ≤ 400000 }
    {
        place(self.sample.stored() + level.below + m)
    }

    /// How many blocks a volume has at least that holds the sample: one more than the last block that is used.
    pub fn needed(&self) -> u32
        ensures { result ≡ needed self.now.sample }
    {
        self.node_place(&Level::root(self.leaf_count), 0) + 1
    }
}
