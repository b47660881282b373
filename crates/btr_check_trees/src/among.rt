// Chunks that are among others.
ghost use Rattle.std.specs.Prelude.{All, Contains};
ghost use Rattle.std.specs.Bool.{Decides};
ghost use Rattle.btr_check_trees.specs.ChunkTree.{AreSystem};

use btr_check_rules::btr_reader::{ChunkAt, is_among};

/// Whether all of some chunks are among others.
fn are_among(chunks: &[ChunkAt], others: &[ChunkAt]) -> bool
    ensures { Decides result (All (λ c. Contains others.now c) chunks.now) }
{
    for c in chunks {
        if !is_among(c, others) {
            return false;
        }
    }
    true
}

/// Whether these chunks of the bootstrap array are the system chunks of the chunk tree. There are few of either.
pub fn are_system(boot: &[ChunkAt], system: &[ChunkAt]) -> bool
    ensures { Decides result (AreSystem boot.now system.now) }
{
    if !are_among(boot, system) {
        return false;
    }
    are_among(system, boot)
}
