//! Whole runs of the program over volumes in memory: the tools of tests, and nothing that the program itself uses.
//!
//! [`ran`] runs a command line over a disk in memory, where a call, the power or the output may fail, and [`follow`] several lines that have to end
//! as their [`End`]s say. [`Volume`] has the sample volumes by their names, on disks in memory. [`Old`] is a ReiserFS volume with what
//! has to come back of it, and [`Old::stops`] stops a command behind each of its writes and looks at what crashes leave. What is wrong is a
//! [`Broken`].
//!
//! The contracts here are as small as can be: what a run leaves is said by the contract of `run`, and the tests look at values.
#![tactic(auto)]

mod block_access;
mod broken;
mod choice;
mod converted;
mod home_volume;
mod layout;
mod old;
mod run;
mod sample;
mod script;
mod stop;
mod volumes;

pub use block_access::{block, format_at_16, put_block};
pub use broken::Broken;
pub use choice::Choice;
pub use converted::{Encoding, encode, move_image, remove_image};
pub use layout::put_bytes;
pub use old::Old;
pub use run::{Ended, Trouble, done, ran};
pub use sample::MARKED;
pub use script::{End, Step, follow};
pub use stop::Stops;
pub use volumes::{Volume, Way};
