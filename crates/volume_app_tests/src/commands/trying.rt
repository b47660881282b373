// Runs of `trial`.
use super::{Base, Case, ROOT, check};
use std::test::*;
use volume_app_test_kit::End::{Begins, Done, Faulty, Refused, Unprinted};
use volume_app_test_kit::{Broken, Step};

const DONE: &str = "trial 0\nrows 1\nbytes 0\nconverted\nsame rows\nrolled back\nsame blocks\n";

const NEW: Base = Base::Zeros(65_536);

const CASES: [Case; 4] = [
    // The sample stands behind a trial, and a second one does not overwrite it.
    Case(
        NEW,
        &[],
        &[
            Step("trial 0 s", Done(DONE)),
            Step("list s", Done(ROOT)),
            Step("trial 0 s", Refused(1, "refused 16 format\n")),
        ],
    ),
    Case(NEW, &[], &[Step("trial 1 s", Begins("trial 1\nrows 3\n"))]),
    // A device that is too short is not written.
    Case(
        Base::Zeros(65_535),
        &[],
        &[Step("trial 0 s", Refused(1, "refused 4 short 65536 65535\n"))],
    ),
    Case(
        Base::Zeros(0),
        &[],
        &[Step("trial 0 s", Refused(1, "refused 4 short 65536 0\n"))],
    ),
];

#[test]
fn trials_end_so(rt: HostRuntime) -> Result<(), Broken> {
    check(rt.alloc(), &CASES)
}

/// Calls of the disk that fail, and then the output.
const FAULTS: [Case; 5] = [
    Case(NEW, &[], &[Step("trial 0 s", Faulty(0))]),
    Case(NEW, &[], &[Step("trial 0 s", Faulty(1))]),
    Case(NEW, &[], &[Step("trial 0 s", Faulty(2))]),
    Case(NEW, &[], &[Step("trial 0 s", Faulty(8_000))]),
    Case(
        NEW,
        &[],
        &[
            Step("trial 0 s", Unprinted(DONE)),
            Step("list s", Done(ROOT)),
        ],
    ),
];

#[test]
fn failed_calls_end_a_trial(rt: HostRuntime) -> Result<(), Broken> {
    check(rt.alloc(), &FAULTS)
}
