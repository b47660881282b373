// How fast a command moves blocks.

/// So many moments are kept, one for each second.
const KEPT: u64 = 30;

/// Moments are so many milliseconds apart at least.
const APART: u64 = 1000;

/// How many blocks were moved until a moment, in milliseconds since the command began.
#[derive(Clone, Copy)]
pub struct Moment {
    pub at: u64,
    pub blocks: u64,
}

/// How fast blocks were moved in the last half minute.
#[derive(Drop)]
pub struct Pace {
    moments: [Moment; 30],
    /// How many moments were noted, also those that are no longer kept.
    count: u64,
    /// When the last one was.
    last: u64,
}

impl Pace {
    /// Nothing is known.
    pub fn new() -> Pace {
        Pace {
            moments: [Moment { at: 0, blocks: 0 }; 30],
            count: 0,
            last: 0,
        }
    }

    /// Notes a moment, where it is a second behind the last one.
    pub fn note(&mut self, moment: Moment) {
        if self.count == 0 || moment.at.saturating_sub(self.last) >= APART {
            self.moments[(self.count % KEPT) as usize] = moment;
            self.count = self.count.saturating_add(1);
            self.last = moment.at;
        }
    }

    /// The blocks that were moved since the first moment that is kept, and in how many milliseconds.
    pub fn since(&self, now: Moment) -> Moment {
        let first = if self.count <= KEPT {
            self.moments[0]
        } else {
            self.moments[(self.count % KEPT) as usize]
        };
        Moment {
            at: now.at.saturating_sub(first.at),
            blocks: now.blocks.saturating_sub(first.blocks),
        }
    }
}
