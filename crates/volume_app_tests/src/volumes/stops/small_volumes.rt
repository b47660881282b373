// Volumes of 54 used blocks or less, stopped behind each write.
use std::alloc::Global;
use std::test::*;
use volume_app_test_kit::{Broken, Choice, Stops, Volume, Way};

/// Nothing that waited is there behind the crash, or all of it, or one of it and one not in turn.
const THREE: &[Choice] = &[Choice::Synced, Choice::Written, Choice::InTurn];

/// Each sector of what waited is there or not as it comes.
const TORN: &[Choice] = &[
    Choice::Torn(1),
    Choice::Torn(20),
    Choice::Torn(300),
    Choice::Torn(4000),
];

/// A volume, the way that it goes, what crashes choose, and how many crashes leave it Btrfs, at least and at most.
#[derive(Clone, Copy)]
struct Case(Volume, Way, &'static [Choice], u64, u64);

const LEFT: Case = Case(Volume::OneFile(16384), Way::Convert, THREE, 1 + 3, 1 + 3);

const RESTORED: Case = Case(
    Volume::OneFile(16384),
    Way::Rollback,
    THREE,
    53 * 3 + 2,
    53 * 3 + 2,
);

const LEFT_FULL: Case = Case(Volume::Full, Way::Convert, TORN, 4, u64::MAX);

const RESTORED_FULL: Case = Case(Volume::Full, Way::Rollback, TORN, 53 * 4, u64::MAX);

const LEFT_END: Case = Case(Volume::UsedEnd, Way::Convert, TORN, 0, 4);

const RESTORED_END: Case = Case(Volume::UsedEnd, Way::Rollback, TORN, 54 * 4, u64::MAX);

/// Sees that so many crashes leave a volume Btrfs.
fn is_between(btrfs: u64, least: u64, most: u64) -> Result<(), Broken> {
    if least <= btrfs && btrfs <= most {
        Ok(())
    } else {
        Err(Broken::Count(btrfs))
    }
}

impl Case {
    /// Stops the way of the volume behind each write.
    fn check(&self, alloc: Global) -> Result<(), Broken> {
        let btrfs = self.0.stops(alloc, self.1, Stops::ALL, self.2)?;
        is_between(btrfs, self.3, self.4)
    }
}

/// The last three writes but one are those of block 16. Where the last of them waits it is there or not, and behind it the copy waits.
#[test]
fn conversion_with_data_in_a_copys_block(rt: HostRuntime) -> Result<(), Broken> {
    LEFT.check(rt.alloc())
}

/// 52 blocks are restored, and then block 16 is written three times, of which the first takes the volume out of Btrfs.
#[test]
fn rollback_with_data_in_a_copys_block(rt: HostRuntime) -> Result<(), Broken> {
    RESTORED.check(rt.alloc())
}

/// An object-id map is in all sectors of the superblock.
#[test]
fn torn_conversion_of_a_full_superblock(rt: HostRuntime) -> Result<(), Broken> {
    LEFT_FULL.check(rt.alloc())
}

#[test]
fn torn_rollback_of_a_full_superblock(rt: HostRuntime) -> Result<(), Broken> {
    RESTORED_FULL.check(rt.alloc())
}

/// There is no block for a copy, so the last write is that of block 16, and no crash before leaves it Btrfs.
#[test]
fn torn_conversion_with_used_blocks_at_the_end(rt: HostRuntime) -> Result<(), Broken> {
    LEFT_END.check(rt.alloc())
}

/// 53 blocks are restored before block 16.
#[test]
fn torn_rollback_with_used_blocks_at_the_end(rt: HostRuntime) -> Result<(), Broken> {
    RESTORED_END.check(rt.alloc())
}

/// How many of 40 random tears behind each of the last five writes leave the volume Btrfs, at least and at most.
const TURNS: [(Way, u64, u64); 2] = [(Way::Convert, 41, 79), (Way::Rollback, 81, 119)];

/// Of the last five writes three are those of block 16: a conversion leaves it Btrfs where the copy waits, and in half of
/// the crashes before; a rollback where nothing of block 16 was written, and in half of the crashes behind the first of these writes.
#[test]
fn torn_turns_of_a_full_superblock(rt: HostRuntime) -> Result<(), Broken> {
    for (way, least, most) in &TURNS {
        let btrfs = Volume::Full.torn_ends(rt.alloc(), *way, 40)?;
        is_between(btrfs, *least, *most)?;
    }
    Ok(())
}
