use crate::census::{Census, Round};
use crate::pace::{Moment, Pace};
use crate::stage_line::stage_text;
use crate::status_line::StatusLine;
use crate::steps::{Stage, Step, Task};
use crate::volume_use::VolumeUse;
use outside::btrfs_format::block::SUPER_BLOCK;
use outside::{Block, BlockNo, Format, format_of};
use std::alloc::Global;
use std::time::{Clock, Duration, Instant};

/// The clock is read at most once in so many calls.
const CALLS: u64 = 64;

/// A command that runs no longer than so many milliseconds shows no line.
const QUIET: u64 = 1000;

/// The blocks that were read and written, whole or in part, since a disk was opened, and the line that tells of it to a person.
///
/// It knows calls alone, and what the blocks are that it was told to expect. A command goes from step to step and never back, and in a step its share
/// never falls.
#[derive(Drop)]
pub struct Watch<'a> {
    line: &'a StatusLine,
    task: Task,
    read: u64,
    written: u64,
    /// How many were read before the first was written.
    read_before: u64,
    volume: Option<VolumeUse>,
    census: Option<Census>,
    /// The step of a trial.
    turn: u64,
    began: Option<Instant>,
    pace: Pace,
    /// The step whose pace it is.
    step: Step,
    /// After how many milliseconds the last line was shown.
    told: u64,
}

impl<'a> Watch<'a> {
    /// A watch that will tell on this line.
    pub fn new(line: &'a StatusLine) -> Self {
        Watch {
            line,
            task: Task::Inspect,
            read: 0,
            written: 0,
            read_before: 0,
            volume: None,
            census: None,
            turn: 1,
            began: None,
            pace: Pace::new(),
            step: Step::new("", 1, 1),
            told: 0,
        }
    }

    /// What is done with the disk from now on.
    pub fn expect(&mut self, task: Task) {
        self.task = task;
    }

    /// The blocks that were written, whole or in part.
    pub fn written(&self) -> u64 {
        self.written
    }

    /// Begins, where anybody sees the line.
    pub fn begin(&mut self, clock: &impl Clock) {
        if self.line.is_seen() && self.began.is_none() {
            self.began = Instant::now(clock).ok();
        }
    }

    /// A block is read. What the first superblock tells is kept, and so is what that of the image tells, which a rollback reads elsewhere.
    pub fn reads(&mut self, n: BlockNo, block: &Block) {
        self.read = self.read.saturating_add(1);
        match &mut self.census {
            Some(census) => census.reads(n, block, self.task == Task::List),
            None => self.look_for_volume(n, block),
        }
    }

    /// Blocks are read ahead of the command, which stand one behind the other in these bytes. Where anybody sees the line, they are counted as far as
    /// they tell how far the command is, and it is looked whether it is time to tell.
    pub fn reads_ahead<R: Clock + AllocGlobal>(&mut self, bytes: &[u8], rt: &R) {
        if self.began.is_none() {
            return;
        }
        if let Some(census) = &mut self.census {
            let mut block = Block::zero();
            for part in bytes.chunks_exact(4096) {
                block.bytes.copy_from_slice(part);
                census.reads_ahead(&block);
            }
        }
        self.look_now(rt);
    }

    fn look_for_volume(&mut self, n: BlockNo, block: &Block) {
        let is_first = n == SUPER_BLOCK && self.volume.is_none();
        if !is_first && (self.task != Task::Rollback || self.volume.is_none()) {
            return;
        }
        let format = format_of(block);
        if !is_first && format != Format::Reiser {
            return;
        }
        if let Some(volume) = VolumeUse::of(block) {
            self.volume = Some(volume);
            if format == Format::Reiser && self.task != Task::Trial {
                self.census = Some(Census::new(n, volume));
            }
        }
    }

    /// A block is written. What a trial is at is told by its superblock.
    pub fn writes(&mut self, n: BlockNo, block: &Block) {
        self.counts_write();
        if self.task == Task::Trial && n == SUPER_BLOCK {
            match (self.turn, format_of(block)) {
                (1, Format::Reiser) => self.volume = VolumeUse::of(block),
                (2, Format::Btrfs) => self.turn = 3,
                (3, Format::Reiser) => self.turn = 4,
                _ => {}
            }
        }
    }

    /// All that was written is on the disk. The sample of a trial is made then.
    pub fn syncs(&mut self) {
        if self.task == Task::Trial && self.turn == 1 && self.volume.is_some() {
            self.turn = 2;
        }
    }

    /// The writing of a block failed, behind a part of it or before.
    pub fn fails(&mut self, is_begun: bool) {
        if is_begun {
            self.counts_write();
        }
    }

    fn counts_write(&mut self) {
        if self.written == 0 {
            self.read_before = self.read;
        }
        self.written = self.written.saturating_add(1);
    }

    /// Looks whether it is time to tell how far it is.
    pub fn look<R: Clock + AllocGlobal>(&mut self, rt: &R) {
        if self.blocks() % CALLS == 0 {
            self.look_now(rt);
        }
    }

    /// The same by the clock, whatever the number of calls.
    fn look_now<R: Clock + AllocGlobal>(&mut self, rt: &R) {
        if let Some(began) = self.began {
            if let Ok(time) = began.elapsed(rt) {
                self.tell(rt.alloc(), millis(time));
            }
        }
    }

    /// All blocks that were moved.
    fn blocks(&self) -> u64 {
        self.read.saturating_add(self.written)
    }

    /// Shows how far it is after so many milliseconds, where it is time for another line. Without memory it shows nothing.
    fn tell(&mut self, alloc: Global, after: u64) {
        let stage = self.stage();
        if stage.step != self.step {
            self.step = stage.step;
            self.pace = Pace::new();
        }
        let now = Moment {
            at: after,
            blocks: stage.done,
        };
        self.pace.note(now);
        if after < QUIET || after.saturating_sub(self.told) < self.line.stands() {
            return;
        }
        if let Ok(text) = stage_text(alloc, &stage, self.pace.since(now)) {
            self.line.show(alloc, text.as_str());
        }
        self.told = after;
    }

    /// What is done right now, and how far it is.
    pub fn stage(&self) -> Stage {
        match (self.task, self.written) {
            (Task::Inspect, _) => self.looking("counting", 2),
            (Task::InspectAgain { time, of }, _) => self.looking_again(time, of),
            (Task::List, _) => self.listing(),
            (Task::Convert, 0) => self.looking("counting", 3),
            (Task::Convert, _) => Stage {
                step: Step::new("converting", 3, 3),
                done: self.read.saturating_sub(self.read_before),
                known: self.to_convert(),
            },
            (Task::Recover, 0) => Stage {
                step: Step::new("checking", 1, 1),
                done: self.read,
                known: match &self.census {
                    Some(census) => Some(census.volume().front),
                    None => None,
                },
            },
            (Task::Recover, _) => Stage::unknown(Step::new("writing", 1, 1), self.written),
            (Task::Rollback, 0) => self.going_back(),
            (Task::Rollback, _) => Stage::unknown(Step::new("writing", 3, 3), self.written),
            (Task::Trial, _) => self.trying(),
        }
    }

    /// How far the look through a volume is, whose second round has this name. How many blocks it takes is known of ReiserFS alone.
    fn looking(&self, second: &'static str, of: u64) -> Stage {
        match &self.census {
            Some(census) => Stage {
                step: match census.round() {
                    Round::First => Step::new("checking", 1, of),
                    Round::Second => Step::new(second, 2, of),
                },
                done: census.done(),
                known: Some(census.volume().used),
            },
            None => Stage::unknown(Step::new("checking", 1, 1), self.read),
        }
    }

    fn looking_again(&self, time: u64, of: u64) -> Stage {
        let stage = self.looking("", 2);
        let number = time.saturating_mul(2).saturating_add(stage.step.number);
        Stage {
            step: Step::new("counting again", number, of.saturating_mul(2)),
            ..stage
        }
    }

    fn listing(&self) -> Stage {
        match (&self.census, self.volume) {
            (None, Some(volume)) => Stage {
                step: Step::new("reading", 1, 1),
                done: self.read,
                known: Some(volume.used),
            },
            _ => self.looking("reading", 2),
        }
    }

    /// How far a rollback is that has not written. How many blocks of a Btrfs volume it reads is told nowhere.
    fn going_back(&self) -> Stage {
        match &self.census {
            Some(census) => Stage {
                step: Step::new("checking", 2, 3),
                done: census.done(),
                known: Some(census.volume().used),
            },
            None => Stage::unknown(Step::new("reading", 1, 3), self.read),
        }
    }

    fn trying(&self) -> Stage {
        match (self.turn, self.volume) {
            (1, Some(volume)) => Stage {
                step: Step::new("making", 1, 4),
                done: self.written,
                known: Some(volume.used),
            },
            (turn, _) => Stage::unknown(Step::new(turn_name(turn), turn, 4), self.blocks()),
        }
    }

    /// How many blocks a conversion reads once it has begun to write: those in use, and once more what it looked through, but for the journal.
    fn to_convert(&self) -> Option<u64> {
        let volume = self.volume?;
        let tree = self.read_before.saturating_sub(volume.journal);
        Some(volume.used.saturating_add(tree))
    }
}

/// What a trial does in its step with this number.
fn turn_name(turn: u64) -> &'static str {
    match turn {
        1 => "making",
        2 => "converting",
        3 => "rolling back",
        _ => "comparing",
    }
}

/// A time in milliseconds.
fn millis(time: Duration) -> u64 {
    u64::try_from(time.as_millis()).unwrap_or(u64::MAX)
}
