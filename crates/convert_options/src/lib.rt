//! The options of a conversion: what may be chosen, and the words of a command line that say so.
//!
//! A conversion takes [`Options`]. [`read_options`] reads them from the words between the command and its path;
//! [`read_convert_options`] and [`read_inspect_options`] read those of a command, where `--verbose` may stand too.
#![tactic(auto)]

mod asked;
mod given;
mod label;
mod options;
mod read;
mod setting;
mod values;

pub use asked::{AskedOptions, is_verbose, read_convert_options, read_inspect_options};
pub use label::Label;
pub use options::{LabelChoice, Options, UuidChoice, is_nil};
pub use read::read_options;
pub use setting::Setting;
