// What is decided before the first write.
ghost use Rattle.std.specs.Prelude.{◌≡◌, IfErr, IfOk};
ghost use Rattle.std.specs.Result.{MatchResult};
ghost use Rattle.command_answers.specs.outside.Fault.{HasCauseOf};
ghost use Rattle.command_answers.specs.outside.History.{OverTold};
ghost use Rattle.btr_tree.specs.btr_node.NodeSize.{IsNodeSize};
ghost use Rattle.convert_steps.specs.Prepared.{HasPlanFor, IsPrepared, IsPrepareAnswer, RefusesConversion, by_plan};

use crate::form::{ids_of, label_of};
use command_answers::{Answer, BlockSource, Ids};
use extent_pieces::Pieces;
use reiser_volume::Volume;
use std::alloc::Global;
use unit_plan::convert_options::Options;
use unit_plan::{Need, Plan, PlanAnswer, choose, needed};

/// All that is known before the first write.
#[derive(Drop)]
pub struct Prepared {
    /// The opened volume.
    pub volume: Volume,
    /// Its pieces, at their places.
    pub pieces: Pieces,
    /// The space that is needed, in units of 1 MiB.
    pub need: Need,
    /// The units that are taken.
    pub plan: Plan,
    /// The identifiers that the new volume gets.
    pub ids: Ids,
    /// The field of its label in the superblock.
    pub label: [u8; 256],
}

/// Reads and checks the volume, divides it into pieces, and chooses the units that are taken.
pub fn prepare<S: BlockSource>(
    alloc: Global,
    src: &mut S,
    ids: &Ids,
    options: &Options,
) -> Result<Prepared, Answer>
    requires { IsNodeSize options.now.nodesize }
    ensures kept { S.kept src.old src.new }
    ensures cause { HasCauseOf Answer.Fault (S.faults src.old) (S.faults src.new) result }
    ensures answers { IfErr result IsPrepareAnswer }
    ensures plan { IfOk result HasPlanFor }
    ensures prepared { OverTold S.tells (S.blocks src.old) (λ image.
        MatchResult result (IsPrepared image options.now ids.now) (RefusesConversion image options.now)) }
{
    let volume = Volume::open(alloc, src)?;
    let mut pieces = Pieces::find(alloc, src, &volume, options)?;
    let need = needed(&pieces.counts(), options);
    let plan = match choose(alloc, volume.bitmap(), &need) {
        Ok(plan) => plan,
        Err(answer) => return Err(plan_answer(answer)),
    };
    pieces.place(&plan);
    let ids = ids_of(ids, volume.sup(), options);
    let label = label_of(volume.sup(), options);
    Ok(Prepared {
        volume,
        pieces,
        need,
        plan,
        ids,
        label,
    })
}

/// The answer where there is no plan.
fn plan_answer(answer: PlanAnswer) -> Answer
    ensures { result ≡ by_plan answer }
{
    match answer {
        PlanAnswer::NoSpace {
            needed,
            free,
            run_needed,
            longest_run,
        } => Answer::NoSpace {
            needed,
            free,
            run_needed,
            longest_run,
        },
        PlanAnswer::Memory => Answer::Memory,
    }
}
