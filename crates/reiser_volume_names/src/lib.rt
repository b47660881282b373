//! The rules that the names of a ReiserFS volume keep, and the looks at them.
//!
//! A caller that has the objects of a tree and the keys of those that are named ([`reiser_volume_objects::Objects::check`]) calls
//! [`check_all_names`], which says whether all the rules are kept, or refuses by one that fails.
#![tactic(auto)]

mod again;
mod counts;
mod crowd;
mod each;
mod extended;
mod laws;
mod names;
mod once;
mod one;
mod private;

pub use castagnoli::{extref_hash, name_hash};
pub use laws::{links_are_one, names_refusals_break_rules};
pub use names::check_all_names;
