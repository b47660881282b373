//! The conversion of a ReiserFS volume to Btrfs.
//!
//! [`convert`] syncs a disk and converts its volume in place. [`Survey::read`] says what a conversion would count and need,
//! and [`Survey::of`] says it of a volume that is open already.
#![tactic(auto)]

mod answers;
mod copied;
mod in_place;
mod laws;
mod summary;
mod survey;
mod volume;
mod whole;

pub use convert_steps::{Answer, FormatFound, find_format};
pub use in_place::convert;
pub use laws::surveys_are_one;
pub use summary::ConvertSummary;
pub use survey::Survey;
pub use unit_plan::convert_options;
