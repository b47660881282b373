// What a conversion takes if something is asked for otherwise, where the space does not suffice for what was asked for.
use crate::space::Space;
use reiserconv_words::{Change, Choice, Wanted};
use std::alloc::{AllocError, Global};

/// The sizes of nodes that are looked at, in bytes. Larger ones hardly ever take fewer units.
const SIZES: [&str; 3] = ["4096", "8192", "16384"];

/// The options that may take units, and can be left out: the new volume is as good without them.
const LEFT_OUT: [Choice; 1] = [Choice::NoInline];

/// A change of what was asked for, and the space that `inspect` counts with it.
#[derive(Clone, Copy, Debug, PartialEq, Eq)]
pub struct Counted {
    pub change: Change,
    pub space: Space,
}

/// What was counted again, with one change each.
#[derive(Clone, Copy, Debug, PartialEq, Eq)]
pub struct Recount {
    /// With nodes of the other size with which the least is missing, and of those of the one that takes the fewest units.
    pub sized: Option<Counted>,
    /// The same without one of the options.
    pub without: Option<Counted>,
}

impl Recount {
    /// Nothing was counted yet.
    pub fn new() -> Recount {
        Recount {
            sized: None,
            without: None,
        }
    }

    /// Adds a count. Of those of one kind the best one is kept.
    pub fn add(&mut self, counted: Counted) {
        match counted.change {
            Change::Size(_) => self.sized = Some(better(self.sized, counted)),
            Change::Without(_) => self.without = Some(better(self.without, counted)),
        }
    }
}

/// The changes of what was asked for that are looked at.
pub fn changes(alloc: Global, wanted: Wanted<'_>) -> Result<Vec<Change>, AllocError> {
    let mut changes = Vec::new(alloc);
    for size in SIZES {
        if size != wanted.size() {
            changes.push(Change::Size(size))?;
        }
    }
    for option in LEFT_OUT {
        if wanted.has(option) {
            changes.push(Change::Without(option))?;
        }
    }
    Ok(changes)
}

/// The better one of two, and the first of two that are as good.
fn better(best: Option<Counted>, other: Counted) -> Counted {
    match best {
        Some(best) if best.space.is_as_good_as(&other.space) => best,
        _ => other,
    }
}
