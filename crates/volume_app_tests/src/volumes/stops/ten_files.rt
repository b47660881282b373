// The conversion and the rollback of a volume of 12,288 blocks with ten files, stopped behind each write. Each sector of what waited is there
// behind the crash or not as it comes.
use super::stop;
use std::test::*;
use volume_app_test_kit::{Broken, Choice, Way};

const TORN: [Choice; 1] = [Choice::Torn(7)];

#[test]
fn conversion_of_ten_files_stop_0(rt: HostRuntime) -> Result<(), Broken> {
    stop(rt.alloc(), 10, Way::Convert, 0, &TORN)
}

#[test]
fn conversion_of_ten_files_stop_1(rt: HostRuntime) -> Result<(), Broken> {
    stop(rt.alloc(), 10, Way::Convert, 1, &TORN)
}

#[test]
fn conversion_of_ten_files_stop_2(rt: HostRuntime) -> Result<(), Broken> {
    stop(rt.alloc(), 10, Way::Convert, 2, &TORN)
}

#[test]
fn conversion_of_ten_files_stop_3(rt: HostRuntime) -> Result<(), Broken> {
    stop(rt.alloc(), 10, Way::Convert, 3, &TORN)
}

#[test]
fn conversion_of_ten_files_stop_4(rt: HostRuntime) -> Result<(), Broken> {
    stop(rt.alloc(), 10, Way::Convert, 4, &TORN)
}

#[test]
fn conversion_of_ten_files_stop_5(rt: HostRuntime) -> Result<(), Broken> {
    stop(rt.alloc(), 10, Way::Convert, 5, &TORN)
}

#[test]
fn conversion_of_ten_files_stop_6(rt: HostRuntime) -> Result<(), Broken> {
    stop(rt.alloc(), 10, Way::Convert, 6, &TORN)
}

#[test]
fn conversion_of_ten_files_stop_7(rt: HostRuntime) -> Result<(), Broken> {
    stop(rt.alloc(), 10, Way::Convert, 7, &TORN)
}

#[test]
fn rollback_of_ten_files_stop_0(rt: HostRuntime) -> Result<(), Broken> {
    stop(rt.alloc(), 10, Way::Rollback, 0, &TORN)
}

#[test]
fn rollback_of_ten_files_stop_1(rt: HostRuntime) -> Result<(), Broken> {
    stop(rt.alloc(), 10, Way::Rollback, 1, &TORN)
}

#[test]
fn rollback_of_ten_files_stop_2(rt: HostRuntime) -> Result<(), Broken> {
    stop(rt.alloc(), 10, Way::Rollback, 2, &TORN)
}

#[test]
fn rollback_of_ten_files_stop_3(rt: HostRuntime) -> Result<(), Broken> {
    stop(rt.alloc(), 10, Way::Rollback, 3, &TORN)
}

#[test]
fn rollback_of_ten_files_stop_4(rt: HostRuntime) -> Result<(), Broken> {
    stop(rt.alloc(), 10, Way::Rollback, 4, &TORN)
}

#[test]
fn rollback_of_ten_files_stop_5(rt: HostRuntime) -> Result<(), Broken> {
    stop(rt.alloc(), 10, Way::Rollback, 5, &TORN)
}

#[test]
fn rollback_of_ten_files_stop_6(rt: HostRuntime) -> Result<(), Broken> {
    stop(rt.alloc(), 10, Way::Rollback, 6, &TORN)
}

#[test]
fn rollback_of_ten_files_stop_7(rt: HostRuntime) -> Result<(), Broken> {
    stop(rt.alloc(), 10, Way::Rollback, 7, &TORN)
}
