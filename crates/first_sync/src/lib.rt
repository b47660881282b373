//! What is said of a command that begins with a sync.
//!
//! Whatever was written before and has not reached the device, has reached it once that sync has succeeded. So a command that begins with
//! one is right from every history of a disk, and not only from a settled one: until then a crash leaves what it would have left before.
//! The definitions are what contracts cite in place of those for a settled disk, and [`first_sync_parts`] is the law that they rest on.
#![tactic(auto)]

mod laws;

pub use laws::first_sync_parts;
