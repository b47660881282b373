use refusals::CopyList;

/// A run of units.
#[derive(Clone, Copy, Debug, PartialEq, Eq)]
pub struct Run {
    /// The first unit.
    pub first: u64,
    /// How many units there are.
    pub count: u64,
}

/// Runs of units, as a list.
pub type Runs = CopyList<Run>;
