// Whether the space of a volume suffices for a conversion, and what helps where it does not.
use crate::paragraph::Paragraph;
use crate::recount::{Counted, Recount};
use reiserconv_words::{Change, Choice, Verb, Wanted};
use std::alloc::{AllocError, Global};

/// The free units of 1 MiB of a volume, and those that a conversion takes.
#[derive(Clone, Copy, Debug, PartialEq, Eq)]
pub struct Space {
    /// All that are free.
    pub units: u64,
    /// All that it takes.
    pub needed: u64,
    /// How many of those have to lie in one row.
    pub run: u64,
    /// How many the longest free row has, where that is known.
    pub longest: Option<u64>,
}

/// Linux itself needs free units to write to a volume: with fewer to spare it takes few new files, or may only read.
const GOOD_TO_SPARE: u64 = 16;

impl Space {
    /// By what `inspect` prints of a ReiserFS volume.
    pub fn printed(text: &str) -> Option<Space> {
        Some(Space {
            units: number_behind(text, "units ")?,
            needed: number_behind(text, "needed ")?,
            run: number_behind(text, "run ")?,
            longest: None,
        })
    }

    /// By the numbers of the refusal: what is needed and free, the row that is needed, and the longest one.
    pub fn refused(numbers: &[&str]) -> Option<Space> {
        match numbers {
            [needed, units, run, longest] => Some(Space {
                units: units.parse().ok()?,
                needed: needed.parse().ok()?,
                run: run.parse().ok()?,
                longest: Some(longest.parse().ok()?),
            }),
            _ => None,
        }
    }

    /// How many free units are missing.
    fn missing(&self) -> u64 {
        let in_all = self.needed.saturating_sub(self.units);
        match self.longest {
            Some(longest) if longest < self.run => in_all.max(self.run),
            _ => in_all,
        }
    }

    /// Whether it suffices, as far as the numbers tell.
    pub fn suffices(&self) -> bool {
        self.missing() == 0
    }

    /// Whether no more is missing than in another count of the same volume, and where as much is, no more is needed.
    pub fn is_as_good_as(&self, other: &Space) -> bool {
        let (missing, others) = (self.missing(), other.missing());
        missing < others || (missing == others && self.needed <= other.needed)
    }

    /// Tells whether the volume can be converted, and how, and else what helps. `wanted` is what was counted with, and `again` what was counted
    /// with something else, where that was done.
    pub fn tell(
        &self,
        alloc: Global,
        text: &mut Paragraph<'_>,
        wanted: Wanted<'_>,
        again: Option<&Recount>,
    ) -> Result<(), AllocError> {
        if self.suffices() {
            self.tell_that_it_fits(alloc, text, wanted)
        } else {
            let numbers = Numbers::new(alloc, self)?;
            text.say(TOO_FEW, &numbers.parts())?;
            text.end()?;
            self.tell_what_helps(alloc, text, wanted, again)
        }
    }

    fn tell_that_it_fits(
        &self,
        alloc: Global,
        text: &mut Paragraph<'_>,
        wanted: Wanted<'_>,
    ) -> Result<(), AllocError> {
        let numbers = Numbers::new(alloc, self)?;
        let fits = if self.run > 1 { FITS_IN_A_ROW } else { FITS };
        text.say(fits, &numbers.parts())?;
        let command = wanted.command(alloc, Verb::Convert, None)?;
        text.say(CONVERT, &[command.as_str()])?;
        if self.spare() < GOOD_TO_SPARE {
            text.say(HARDLY, &[])?;
        }
        text.end()
    }

    /// How many free units a conversion leaves.
    fn spare(&self) -> u64 {
        self.units.saturating_sub(self.needed)
    }

    /// Tells what helps where the space does not suffice. `wanted` and `again` are as for `tell`.
    pub fn tell_what_helps(
        &self,
        alloc: Global,
        text: &mut Paragraph<'_>,
        wanted: Wanted<'_>,
        again: Option<&Recount>,
    ) -> Result<(), AllocError> {
        let numbers = Numbers::new(alloc, self)?;
        text.say("What to do:", &[])?;
        let in_one_row = self.needed <= self.units;
        text.say(
            if in_one_row { FREE_A_ROW } else { FREE_MORE },
            &numbers.parts(),
        )?;
        text.say(ENLARGE, &numbers.parts())?;
        match again {
            Some(again) => self.tell_of_counts(alloc, text, wanted, again)?,
            None => tell_what_to_count(alloc, text, wanted)?,
        }
        if wanted.is_hashed() && !wanted.has(Choice::NoDatasum) {
            text.say(SHORTER_SUMS, &[])?;
        }
        text.end()
    }

    /// Tells which of the counts with a change helps.
    fn tell_of_counts(
        &self,
        alloc: Global,
        text: &mut Paragraph<'_>,
        wanted: Wanted<'_>,
        again: &Recount,
    ) -> Result<(), AllocError> {
        let sized = self.helping(again.sized);
        let without = self.helping(again.without);
        match &sized {
            Some(best) => tell_of(alloc, text, wanted, best)?,
            None => text.say(NO_OTHER_NODES, &other_sizes(wanted.size()))?,
        }
        if let Some(best) = &without {
            tell_of(alloc, text, wanted, best)?;
        }
        if is_tight(sized) || is_tight(without) {
            text.say(HARDLY, &[])?;
        }
        Ok(())
    }

    /// A count that needs fewer units, if this one does.
    fn helping(&self, counted: Option<Counted>) -> Option<Counted> {
        match counted {
            Some(counted) if counted.space.needed < self.needed => Some(counted),
            _ => None,
        }
    }
}

/// Whether it suffices by a count, but leaves too little for Linux to write.
fn is_tight(counted: Option<Counted>) -> bool {
    match counted {
        Some(counted) => counted.space.suffices() && counted.space.spare() < GOOD_TO_SPARE,
        None => false,
    }
}

/// Tells of a count with a change that needs fewer units, and whether it suffices.
fn tell_of(
    alloc: Global,
    text: &mut Paragraph<'_>,
    wanted: Wanted<'_>,
    best: &Counted,
) -> Result<(), AllocError> {
    let numbers = Numbers::new(alloc, &best.space)?;
    let (needed, spare) = (numbers.needed.as_str(), numbers.spare.as_str());
    let command = wanted.command(alloc, Verb::Convert, Some(best.change))?;
    let command = command.as_str();
    match (best.change, best.space.suffices()) {
        (Change::Size(size), true) => text.say(BETTER_NODES, &[size, needed, spare, command]),
        (Change::Size(size), false) => text.say(SMALLER_NEED, &[size, needed]),
        (Change::Without(option), true) => {
            text.say(LEFT_OUT, &[option.word(), needed, spare, command])
        }
        (Change::Without(option), false) => text.say(LESS_NEED, &[option.word(), needed]),
    }
}

/// Tells by which commands it can be counted what helps, and which one converts the volume then: nodes of another size, and files in the tree where it was
/// asked for none.
fn tell_what_to_count(
    alloc: Global,
    text: &mut Paragraph<'_>,
    wanted: Wanted<'_>,
) -> Result<(), AllocError> {
    let [size, other] = other_sizes(wanted.size());
    let change = Some(Change::Size(size));
    let count = wanted.command(alloc, Verb::Inspect, change)?;
    let convert = wanted.command(alloc, Verb::Convert, change)?;
    let parts = [count.as_str(), other, size, convert.as_str()];
    text.say(OTHER_NODES, &parts)?;
    if wanted.has(Choice::NoInline) {
        let change = Some(Change::Without(Choice::NoInline));
        let count = wanted.command(alloc, Verb::Inspect, change)?;
        let convert = wanted.command(alloc, Verb::Convert, change)?;
        text.say(MAY_BE_LEFT_OUT, &[count.as_str(), convert.as_str()])?;
    }
    Ok(())
}

const FITS: &str =
    "It can be converted: {2} units of 1 MiB are needed, {1} are free as a whole, and so {3} to spare.";

const FITS_IN_A_ROW: &str =
    "It can be converted if of the free units of 1 MiB {4} lie in one row, which 'convert' sees before it writes: {2} are needed, {1} are free as a whole, and so {3} to spare.";

const CONVERT: &str = "This command does it: '{1}'.";

const SHORTER_SUMS: &str =
    "Or leave '--csum sha256' out: checksums by CRC-32C take some 7 MiB less for each GiB in use.";

const HARDLY: &str =
    "Linux takes such units too when it writes to the new volume: have 16 to spare, or it may only be able to read there until more is free.";

const TOO_FEW: &str =
    "It can't be converted as it is: {2} units of 1 MiB are needed, and {1} {1:is:are} free as a whole, which is {5} too few.";

const FREE_MORE: &str =
    "Mount it in Linux 6.12 or earlier, which has ReiserFS, and remove large files or move them away, until {5} MiB more {5:is:are} free as a whole, better {6}, since Linux takes some to write to the new volume. Small files that lie scattered hardly help.";

const FREE_A_ROW: &str =
    "Mount it in Linux 6.12 or earlier, which has ReiserFS, and remove a large file or move it away, until {4} MiB are free in one row.";

const ENLARGE: &str =
    "Or make the partition larger by {6} MiB or more, and then the volume ('resize_reiserfs -f {path}').";

const OTHER_NODES: &str =
    "Nodes of another size may need less: '{1}' tells how much, and so does the same with {2}. If nodes of {3} bytes suffice, '{4}' converts it.";

const BETTER_NODES: &str =
    "Or take nodes of {1} bytes, which need {2} units, so that {3} to spare: '{4}'.";

const SMALLER_NEED: &str =
    "Nodes of {1} bytes need fewer units, {2} ('--nodesize {1}'), which alone does not suffice.";

const NO_OTHER_NODES: &str = "Nodes of {1} or {2} bytes need no fewer units.";

const LEFT_OUT: &str =
    "Or leave '{1}' out: then {2} units are needed, so that {3} to spare: '{4}'.";

const LESS_NEED: &str = "Without '{1}' fewer units are needed, {2}, which alone does not suffice.";

const MAY_BE_LEFT_OUT: &str =
    "Without '--no-inline' it may need less: '{1}' tells how much. If that suffices, '{2}' converts it.";

/// Two sizes of nodes to try in place of the one that was counted with.
fn other_sizes(size: &str) -> [&'static str; 2] {
    match size {
        "4096" => ["8192", "16384"],
        "8192" => ["4096", "16384"],
        _ => ["4096", "8192"],
    }
}

/// The numbers of the sentences as text.
#[derive(Drop)]
struct Numbers {
    units: String,
    needed: String,
    /// With its verb: none is to spare, one is, two are.
    spare: String,
    run: String,
    missing: String,
    larger: String,
}

impl Numbers {
    fn new(alloc: Global, space: &Space) -> Result<Numbers, AllocError> {
        let missing = space.missing();
        Ok(Numbers {
            units: decimal(alloc, space.units)?,
            needed: decimal(alloc, space.needed)?,
            spare: with_verb(alloc, space.spare())?,
            run: decimal(alloc, space.run)?,
            missing: decimal(alloc, missing)?,
            larger: decimal(alloc, missing.saturating_add(GOOD_TO_SPARE))?,
        })
    }

    /// `{1}` to `{6}`.
    fn parts(&self) -> [&str; 6] {
        [
            self.units.as_str(),
            self.needed.as_str(),
            self.spare.as_str(),
            self.run.as_str(),
            self.missing.as_str(),
            self.larger.as_str(),
        ]
    }
}

fn decimal(alloc: Global, number: u64) -> Result<String, AllocError> {
    format!(in alloc; "{}", number)
}

/// A number and its verb.
fn with_verb(alloc: Global, number: u64) -> Result<String, AllocError> {
    match number {
        0 => String::from_str(alloc, "none is"),
        1 => String::from_str(alloc, "1 is"),
        _ => format!(in alloc; "{} are", number),
    }
}

/// The number behind a word at the front of a line.
fn number_behind(text: &str, word: &str) -> Option<u64> {
    for line in text.lines() {
        if let Some(number) = line.strip_prefix(word) {
            return number.parse().ok();
        }
    }
    None
}
