//! Tests of the program's commands over disks in memory: what each prints, answers and leaves, word by word; volumes that
//! are converted, listed, rolled back and refused by the top call; and runs whose power fails behind one of their
//! writes.
//!
//! The crate has no code of its own. The contract of `run` says what each command leaves; these tests show it of volumes
//! as they come, by the texts that are printed and the blocks that are left.
#![tactic(auto)]

#[cfg(test)]
mod commands;
#[cfg(test)]
mod volumes;
