// The conversion of an empty volume of 12,288 blocks, stopped behind each write.
use super::stop;
use std::test::*;
use volume_app_test_kit::{Broken, Choice, Way};

/// Nothing that waited is there behind the crash, or all of it.
const CHOICES: [Choice; 2] = [Choice::Synced, Choice::Written];

#[test]
fn conversion_of_an_empty_volume_stop_0(rt: HostRuntime) -> Result<(), Broken> {
    stop(rt.alloc(), 0, Way::Convert, 0, &CHOICES)
}

#[test]
fn conversion_of_an_empty_volume_stop_1(rt: HostRuntime) -> Result<(), Broken> {
    stop(rt.alloc(), 0, Way::Convert, 1, &CHOICES)
}

#[test]
fn conversion_of_an_empty_volume_stop_2(rt: HostRuntime) -> Result<(), Broken> {
    stop(rt.alloc(), 0, Way::Convert, 2, &CHOICES)
}

#[test]
fn conversion_of_an_empty_volume_stop_3(rt: HostRuntime) -> Result<(), Broken> {
    stop(rt.alloc(), 0, Way::Convert, 3, &CHOICES)
}

#[test]
fn conversion_of_an_empty_volume_stop_4(rt: HostRuntime) -> Result<(), Broken> {
    stop(rt.alloc(), 0, Way::Convert, 4, &CHOICES)
}

#[test]
fn conversion_of_an_empty_volume_stop_5(rt: HostRuntime) -> Result<(), Broken> {
    stop(rt.alloc(), 0, Way::Convert, 5, &CHOICES)
}

#[test]
fn conversion_of_an_empty_volume_stop_6(rt: HostRuntime) -> Result<(), Broken> {
    stop(rt.alloc(), 0, Way::Convert, 6, &CHOICES)
}

#[test]
fn conversion_of_an_empty_volume_stop_7(rt: HostRuntime) -> Result<(), Broken> {
    stop(rt.alloc(), 0, Way::Convert, 7, &CHOICES)
}
