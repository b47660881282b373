//! The way back from a converted volume to the ReiserFS volume in its saved image, and the completion of a switch that a
//! crash cut off.
//!
//! [`prepare`] reads all that is needed and decides whether the old volume can be had back. What is to be written is a
//! [`WayBack`], which [`write_back`] writes so that a crash at any moment leaves the one volume or the other, and takes
//! no memory. [`rollback`] is both. The old volume's blocks still lie where they did, but for the reserved ones, which
//! Btrfs wants for itself. So these are written from the image, which the Btrfs volume doesn't notice; then block 16
//! turns the disk into the old volume; then copies of the Btrfs superblock are wiped.
//!
//! [`recover`] looks at the format of a disk and puts right the places of the copies of a Btrfs superblock. On a Btrfs
//! volume the copies become those of its superblock. On a ReiserFS volume a Btrfs superblock that lies in a block
//! without use becomes zeros.
//!
//! Both begin with a sync, so that nothing which was written before waits while they write.
#![tactic(auto)]

mod answers;
mod mending;
mod prepared;
mod recovery;
mod recovery_laws;
mod restore;
mod rollback_laws;
mod rolling;
mod saved;
mod saved_laws;
mod way;
mod wiping;
mod writing;

pub use prepared::prepare;
pub use recovery::{RecoverSummary, recover};
pub use recovery_laws::{
    in_order_has_format, recovers_what_is_in_order, recovery_counts, recovery_goes_on,
    recovery_keeps, recovery_mends, recovery_opens, recovery_stays,
};
pub use restore::write_back;
pub use rollback_laws::{
    recovery_rolls_back, refused_can_not_go_back, rollback_goes_on, rollback_keeps,
    writing_rolls_back,
};
pub use rolling::rollback;
pub use saved_laws::{
    parts_decide_saved, recovery_keeps_use, same_parts_go_back, unused_blocks_decide_nothing,
    unused_blocks_lie_apart, used_blocks_decide_use,
};
pub use way::{RollbackSummary, Saved, WayBack};
