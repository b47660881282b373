ghost use Rattle.std.specs.Prelude.{◌≡◌};
ghost use Rattle.trial_core.specs.Parts.{counted, summary_of as summary_by};

use reiser_volume::fs_rows::{Row, Rows};

/// What a trial tells of its sample.
#[derive(Clone, Copy, Debug, PartialEq, Eq)]
pub struct TrialSummary {
    /// How many paths the volume has, the root among them.
    pub rows: u64,
    /// The bytes of all files, each counted once; at most 2^64 - 1.
    pub bytes: u64,
}

/// What is told of these rows.
pub fn summary_of(rows: &Rows) -> TrialSummary
    ensures { result ≡ summary_by rows.now }
{
    let mut bytes: u64 = 0;
    for i in 0..rows.len() {
        bytes = bytes.saturating_add(counted(rows.get(i)));
    }
    TrialSummary {
        rows: rows.len() as u64,
        bytes,
    }
}

/// The bytes that a row adds: a file is counted at the least of its paths.
fn counted(row: &Row) -> u64
    ensures { result ≡ counted row.now }
{
    if row.kind.is_file() && row.path == row.least {
        row.length
    } else {
        0
    }
}
