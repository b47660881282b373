ghost use Rattle.std.specs.Prelude.{◌≡◌};

use crate::{FreeInfo, FreeStream, Range, UsedRanges};
use btr_node::Key;
use btr_node::btrfs_format::key::{FREE_SPACE_EXTENT, FREE_SPACE_INFO};

/// The ranges of a list, each of which ends below 2^64.
#[derive(Clone, Copy)]
struct Listed<'a> {
    ranges: &'a [Range],
}

impl<'a> UsedRanges for Listed<'a> {
    ghost use Rattle.std.specs.Prelude.{◌<◌, ◌^◌, All};
    ghost use Rattle.free_space.specs.Runs.{end_of};

    ghost ahead = { λ s. s.ranges.now };

    ghost is_live = { λ s. All (λ r. end_of r < 2 ^ 64) s.ranges.now };

    fn first(&self) -> Option<Range> {
        self.ranges.first().copied()
    }

    fn pass(&mut self) {
        self.ranges = &self.ranges[1..];
    }
}

fn range(address: u64, length: u64) -> Range
    ensures { (result.address ≡ address) × (result.length ≡ length) }
{
    Range { address, length }
}

fn key(objectid: u64, kind: u8, offset: u64) -> Key {
    Key {
        objectid,
        kind,
        offset,
    }
}

// The first bytes of such an item on a volume that Linux 6.1 made: 2 runs, told by an item each.
#[test]
fn info_of_linux(rt: HostRuntime) {
    let body = [2, 0, 0, 0, 0, 0, 0, 0];
    let info = FreeInfo { count: 2, flags: 0 };
    assert_eq!(rt; FreeInfo::read(&body), Some(info));
    assert_eq!(rt; info.to_bytes(), body);
    assert_eq!(rt; FreeInfo::read(&body[..7]), None);
}

const MIB: u64 = 1 << 20;

// Two block groups: of the first one two extents are in use, of the second all.
#[test]
fn groups_with_their_runs(rt: HostRuntime) {
    let groups = [range(MIB, MIB), range(3 * MIB, MIB)];
    let used = [
        range(MIB, 16384),
        range(MIB + 20480, 4096),
        range(3 * MIB, MIB),
    ];
    let mut stream = FreeStream::new(&groups, Listed { ranges: &used });
    assert!(rt; stream.advance());
    assert_eq!(rt; stream.key(), key(MIB, FREE_SPACE_INFO, MIB));
    assert_eq!(rt; stream.body(), [2, 0, 0, 0, 0, 0, 0, 0].as_slice());
    assert!(rt; stream.advance());
    assert_eq!(rt; stream.key(), key(MIB + 16384, FREE_SPACE_EXTENT, 4096));
    assert_eq!(rt; stream.body().len(), 0);
    assert!(rt; stream.advance());
    assert_eq!(rt;
        stream.key(),
        key(MIB + 24576, FREE_SPACE_EXTENT, MIB - 24576)
    );
    assert!(rt; stream.advance());
    assert_eq!(rt; stream.key(), key(3 * MIB, FREE_SPACE_INFO, MIB));
    assert_eq!(rt; stream.body(), [0; 8].as_slice());
    assert!(rt; !stream.advance());
}
