//! Sets of numbers, kept as runs of them: gathered in any order, then joined and compared. A run takes 16 bytes, and
//! runs that touch are one.
#![tactic(auto)]

mod gathered;
mod join;
mod run;
mod runs;

pub use gathered::Gathered;
pub use outside::Memory;
pub use run::Run;
pub use runs::Runs;
