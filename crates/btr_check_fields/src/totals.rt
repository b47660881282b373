// The sums that the superblock and the device's item tell.
ghost use Rattle.std.specs.Prelude.{◌≡◌, ◌*◌, List, length};
ghost use Rattle.std.specs.Bool.{Decides};
ghost use Rattle.std.specs.List.{sum_by};
ghost use Rattle.btr_check_rules.specs.btr_reader.btr_node.Leaf.{Item};
ghost use Rattle.btr_check_rules.specs.btr_reader.btr_super.declared.superblock.Super.{Super as SuperOf};
ghost use Rattle.btr_check_rules.specs.Groups.{AreTotals, IsOnlyDevice, stripe_bytes, stripes_of};
ghost use Rattle.btr_check_fields.specs.Devices.{FindsDevices};
ghost use Rattle.btr_check_fields.specs.Read.{AreReadOf, group_at};
ghost use Rattle.btr_check_fields.specs.declared.found.GroupAt.{GroupAt as Group};
ghost use Rattle.btr_check_fields.specs.Totals.{Leaves, tells_volume};

use crate::all::all_passed;
use crate::devices::DevicesFound;
use crate::found::GroupAt;
use btr_check_rules::btr_reader::ChunkAt;
use btr_check_rules::btr_reader::btr_super::Super;

/// Whether block groups have so many bytes in use together.
pub fn used_is(total: u64, groups: &[GroupAt]) -> bool
    ensures { Decides result (total ≡ sum_by (λ (g : Group). g.group.used) groups.now) }
{
    let mut left = total;
    for g in groups {
        if g.group.used > left {
            return false;
        }
        left -= g.group.used;
    }
    left == 0
}

/// What is left of some bytes without the stripes of a chunk; None where these have more.
fn without_stripes(left: u64, c: &ChunkAt) -> Option<u64>
    ensures { Leaves left (c.now.chunk.length * length (stripes_of c.now)) result }
{
    let first = left.checked_sub(c.chunk.length)?;
    if c.mirror.is_none() {
        return Some(first);
    }
    first.checked_sub(c.chunk.length)
}

/// Whether the stripes of chunks have so many bytes together.
pub fn stripes_are(total: u64, chunks: &[ChunkAt]) -> bool
    ensures { Decides result (total ≡ stripe_bytes chunks.now) }
{
    let mut left = total;
    for c in chunks {
        match without_stripes(left, c) {
            Some(rest) => left = rest,
            None => return false,
        }
    }
    left == 0
}

/// Whether the device's item in the superblock tells the volume that nodes name, and its length.
pub fn tells_volume(sup: &Super) -> bool
    ensures { result ≡ tells_volume sup.now }
{
    sup.dev_item.fsid == sup.node_fsid() && sup.dev_item.total_bytes == sup.total_bytes
}

/// Whether the superblock tells the bytes in use, the device and its bytes, and the chunk tree has this device alone.
pub fn totals_hold(
    sup: &Super,
    chunks: &[ChunkAt],
    groups: &[GroupAt],
    devices: &DevicesFound,
) -> bool
    ensures { (items others : List Item) → AreReadOf group_at items groups.now → FindsDevices sup.now others devices.now
        → Decides result (AreTotals sup.now chunks.now items others) }
{
    all_passed(
        is_one(devices),
        used_is(sup.bytes_used, groups),
        tells_volume(sup),
        stripes_are(sup.dev_item.bytes_used, chunks),
    )
}

/// Whether the superblock's device item was met alone.
fn is_one(devices: &DevicesFound) -> bool
    ensures { (s : SuperOf) (items : List Item) → FindsDevices s items devices.now → Decides result (IsOnlyDevice s items) }
{
    match devices {
        DevicesFound::None => false,
        DevicesFound::One => true,
        DevicesFound::Wrong => false,
    }
}
