// Conversions and rollbacks whose power fails: each is stopped behind each of its writes, and what crashes leave then is recovered, listed
// and rolled back. The contract of `run` says what a crash may leave at any moment; these tests show it of volumes as they come.
mod empty_volume;
mod small_volumes;
mod ten_files;

use std::alloc::Global;
use volume_app_test_kit::{Broken, Choice, Stops, Volume, Way};

/// Goes one way with a volume of 12,288 blocks with so many files, stopped behind each eighth write, from the one of number `first` on.
fn stop(alloc: Global, files: u32, way: Way, first: u64, choices: &[Choice]) -> Result<(), Broken> {
    let stops = Stops { first, step: 8 };
    Volume::Made(files, 12288).stops(alloc, way, stops, choices)?;
    Ok(())
}
