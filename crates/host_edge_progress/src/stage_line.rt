// The text of a stage, for a person.
use crate::pace::Moment;
use crate::steps::{Stage, Step};
use std::alloc::{AllocError, Global};

/// How long is left is told once the pace is known of so many milliseconds.
const KNOWN: u64 = 5000;

/// Blocks of 4 KiB in 1 MiB.
const BLOCKS_OF_MIB: u64 = 256;

/// The line of a stage, where so many blocks were done of late in so many milliseconds. It tells how long is left only where the pace is
/// known of five seconds. The error is that no memory is left.
pub fn stage_text(alloc: Global, stage: &Stage, late: Moment) -> Result<String, AllocError> {
    let step = step_text(alloc, &stage.step)?;
    let speed = per_second(late.blocks, late.at) / BLOCKS_OF_MIB;
    match stage.known {
        Some(known) => {
            let left = left(alloc, known.saturating_sub(stage.done), late)?;
            format!(in alloc;
                "{}: {}%, {} of {} MiB, {} MiB/s{}",
                step.as_str(),
                share(stage.done, known),
                stage.done.min(known) / BLOCKS_OF_MIB,
                known / BLOCKS_OF_MIB,
                speed,
                left.as_str()
            )
        }
        None => format!(in alloc;
            "{}: {} MiB, {} MiB/s",
            step.as_str(),
            stage.done / BLOCKS_OF_MIB,
            speed
        ),
    }
}

/// The name of a step, with its number where there are several.
fn step_text(alloc: Global, step: &Step) -> Result<String, AllocError> {
    if step.of > 1 {
        format!(in alloc; "{} ({} of {})", step.name, step.number, step.of)
    } else {
        format!(in alloc; "{}", step.name)
    }
}

/// So many blocks in so many milliseconds as blocks in a second.
fn per_second(blocks: u64, time: u64) -> u64 {
    if time == 0 {
        0
    } else {
        blocks.saturating_mul(1000) / time
    }
}

/// The blocks that are done of those that are known, in percent. The end alone tells that all is done.
fn share(done: u64, known: u64) -> u64 {
    if known == 0 {
        0
    } else {
        (done.saturating_mul(100) / known).min(99)
    }
}

/// How long so many blocks take at the pace of late, with a comma before; nothing where that is not known.
fn left(alloc: Global, blocks: u64, late: Moment) -> Result<String, AllocError> {
    let speed = per_second(late.blocks, late.at);
    if late.at < KNOWN || speed == 0 || blocks == 0 {
        return Ok(String::new(alloc));
    }
    let minutes = blocks / speed / 60;
    match (minutes / 60, minutes % 60) {
        (0, 0) => format!(in alloc; ", under 1 min left"),
        (0, minutes) => format!(in alloc; ", {} min left", minutes),
        (hours, minutes) => format!(in alloc; ", {} h {} min left", hours, minutes),
    }
}
