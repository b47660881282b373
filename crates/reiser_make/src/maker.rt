ghost use Rattle.std.specs.Prelude.{◌≡◌, ◌≤◌, ◌^◌, true, false, Some, IsTrue, OnOk, IfErr};
ghost use Rattle.fs_rows.specs.outside.Fault.{HasCauseOf};
ghost use Rattle.fs_rows.specs.outside.History.{reads, WritesOnly};
ghost use Rattle.reiser_make.specs.Inner.{needed};
ghost use Rattle.reiser_make.specs.Layout.{IsUsed, laid_over, volume_blocks};
ghost use Rattle.reiser_make.specs.Maker.{IsRight, KeepsHistory, usage_of};
ghost use Rattle.reiser_make.specs.Shape.{shape};

use crate::bitmap::Usage;
use crate::layout::write_volume;
use crate::sample_plan::SamplePlan;
use fs_rows::{Access, Disk, Fault, Memory};
use std::alloc::Global;
use thiserror::Error;

/// Why a sample volume was not made.
#[derive(Clone, Copy, Debug, PartialEq, Eq, Error)]
pub enum MakeAnswer {
    /// The sample takes more blocks than the volume has. Nothing was written.
    #[error("needs {needed} blocks of {blocks}")]
    Full { needed: u64, blocks: u64 },
    /// A call of the device failed. Blocks of the volume may have been written.
    #[error("device fault")]
    Fault,
    /// There was no memory.
    #[error("out of memory")]
    Memory,
}

impl From<Fault> for MakeAnswer {
    ghost use Rattle.std.specs.Prelude.{◌≡◌};
    ghost use Rattle.reiser_make.specs.declared.maker.MakeAnswer.TheVariants.{Fault};

    ghost from_gives = { λ _ e. e ≡ Fault };

    fn from(_: Fault) -> Self {
        MakeAnswer::Fault
    }
}

impl From<Memory> for MakeAnswer {
    ghost use Rattle.std.specs.Prelude.{◌≡◌};
    ghost use Rattle.reiser_make.specs.declared.maker.MakeAnswer.TheVariants.{Memory};

    ghost from_gives = { λ _ e. e ≡ Memory };

    fn from(_: Memory) -> Self {
        MakeAnswer::Memory
    }
}

/// Makes the sample volume of a number, of at most 4000, in the first `blocks` blocks of a disk that is open for writing.
///
/// The blocks behind them stay, and so do those of the volume that it leaves free. Full comes before the first write. The
/// caller syncs.
pub fn make<D: Disk>(
    alloc: Global,
    number: u32,
    blocks: u64,
    disk: &mut D,
) -> Result<(), MakeAnswer>
    requires number { number ≤ 4000 }
    requires blocks { blocks ≤ 2 ^ 29 }
    requires inside { blocks ≤ D.size disk.old }
    requires open { D.opened disk.old ≡ Some Access.Write }
    ensures open { D.opened disk.new ≡ D.opened disk.old }
    ensures size { D.size disk.new ≡ D.size disk.old }
    ensures right { IfErr result (IsRight (needed (shape number false)) blocks) }
    ensures enough { OnOk result (needed (shape number false) ≤ blocks) }
    ensures only { IsTrue D.tells → WritesOnly (λ b _. IsUsed (usage_of (shape number false) blocks) b) (D.history disk.old) (D.history disk.new) }
    ensures written { IsTrue D.tells → OnOk result (reads (D.history disk.new) ≡ laid_over (volume_blocks (shape number false) blocks) (reads (D.history disk.old))) }
    ensures unchanged { IsTrue D.tells → IfErr result (λ answer. KeepsHistory answer (D.history disk.old) (D.history disk.new)) }
    ensures cause { HasCauseOf MakeAnswer.Fault (D.faults disk.old) (D.faults disk.new) result }
{
    make_version(alloc, number, false, blocks, disk)
}

/// Makes the same volume with all items of version 0, as format 3.5 has them.
pub fn make_old<D: Disk>(
    alloc: Global,
    number: u32,
    blocks: u64,
    disk: &mut D,
) -> Result<(), MakeAnswer>
    requires number { number ≤ 4000 }
    requires blocks { blocks ≤ 2 ^ 29 }
    requires inside { blocks ≤ D.size disk.old }
    requires open { D.opened disk.old ≡ Some Access.Write }
    ensures open { D.opened disk.new ≡ D.opened disk.old }
    ensures size { D.size disk.new ≡ D.size disk.old }
    ensures right { IfErr result (IsRight (needed (shape number true)) blocks) }
    ensures enough { OnOk result (needed (shape number true) ≤ blocks) }
    ensures only { IsTrue D.tells → WritesOnly (λ b _. IsUsed (usage_of (shape number true) blocks) b) (D.history disk.old) (D.history disk.new) }
    ensures written { IsTrue D.tells → OnOk result (reads (D.history disk.new) ≡ laid_over (volume_blocks (shape number true) blocks) (reads (D.history disk.old))) }
    ensures unchanged { IsTrue D.tells → IfErr result (λ answer. KeepsHistory answer (D.history disk.old) (D.history disk.new)) }
    ensures cause { HasCauseOf MakeAnswer.Fault (D.faults disk.old) (D.faults disk.new) result }
{
    make_version(alloc, number, true, blocks, disk)
}

fn make_version<D: Disk>(
    alloc: Global,
    number: u32,
    old: bool,
    blocks: u64,
    disk: &mut D,
) -> Result<(), MakeAnswer>
    requires number { number ≤ 4000 }
    requires blocks { blocks ≤ 2 ^ 29 }
    requires inside { blocks ≤ D.size disk.old }
    requires open { D.opened disk.old ≡ Some Access.Write }
    ensures open { D.opened disk.new ≡ D.opened disk.old }
    ensures size { D.size disk.new ≡ D.size disk.old }
    ensures right { IfErr result (IsRight (needed (shape number old)) blocks) }
    ensures enough { OnOk result (needed (shape number old) ≤ blocks) }
    ensures only { IsTrue D.tells → WritesOnly (λ b _. IsUsed (usage_of (shape number old) blocks) b) (D.history disk.old) (D.history disk.new) }
    ensures written { IsTrue D.tells → OnOk result (reads (D.history disk.new) ≡ laid_over (volume_blocks (shape number old) blocks) (reads (D.history disk.old))) }
    ensures unchanged { IsTrue D.tells → IfErr result (λ answer. KeepsHistory answer (D.history disk.old) (D.history disk.new)) }
    ensures cause { HasCauseOf MakeAnswer.Fault (D.faults disk.old) (D.faults disk.new) result }
{
    let plan = SamplePlan::new(alloc, number, old)?;
    let usage = Usage {
        needed: plan.needed(),
        blocks: blocks as u32,
    };
    if usage.needed > usage.blocks {
        return Err(MakeAnswer::Full {
            needed: usage.needed as u64,
            blocks,
        });
    }
    write_volume(&plan, &usage, disk)?;
    Ok(())
}
