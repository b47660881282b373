//! A trial of the whole way: a sample volume is made on a scratch device, converted and rolled back, and compared.
//!
//! [`trial`] is all of it. [`go_round`] converts the ReiserFS volume of a disk and rolls it back, and compares the rows
//! and the used blocks of the volumes that stand on the way: [`same_rows`] compares two lists of rows, [`read_mark`]
//! makes the mark of the used blocks of a volume, so that these can be compared without being kept, and [`summary_of`]
//! counts rows and bytes.
#![tactic(auto)]

mod answers;
mod between;
mod known_volume;
mod laws;
mod making;
mod marks;
mod round;
mod same;
mod scratch;
mod summary;
mod whole;

pub use laws::tries_keep;
pub use marks::read_mark;
pub use round::go_round;
pub use same::same_rows;
pub use summary::{TrialSummary, summary_of};
pub use whole::trial;
