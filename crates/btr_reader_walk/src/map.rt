ghost use Rattle.std.specs.Prelude.{◌≡◌, ◌+◌, ◌-◌, true};
ghost use Rattle.btr_reader_walk.specs.Map.{holds, place, are_mapped, is_mapped};

/// A range of logical addresses that lies in one piece on the device, or in two copies, as a chunk says.
#[derive(Clone, Copy, Debug, PartialEq, Eq)]
pub struct MapRange {
    /// The first logical address, in bytes.
    pub logical: u64,
    /// The length in bytes.
    pub length: u64,
    /// Where it begins on the device, in bytes.
    pub physical: u64,
    /// Where its second copy begins, if there is one. It is not read.
    pub mirror: Option<u64>,
}

impl MapRange {
    /// Whether the range holds an address.
    fn holds(&self, address: u128) -> bool
        ensures { result ≡ holds self.now address }
    {
        self.logical as u128 <= address && address < self.logical as u128 + self.length as u128
    }

    /// The place on the device of an address that the range holds.
    fn place_of(&self, address: u128) -> u128
        requires { holds self.now address ≡ true }
        ensures { result ≡ self.now.physical + (address - self.now.logical) }
    {
        self.physical as u128 + (address - self.logical as u128)
    }
}

/// The place on the device of an address, both in bytes, by the first copy of the first range that holds it.
///
/// An address may be past 2^64: it is then one of the last blocks of a node that begins before.
pub fn place(ranges: &[MapRange], address: u128) -> Option<u128>
    ensures { result ≡ place ranges.now address }
{
    for range in ranges {
        if range.holds(address) {
            return Some(range.place_of(address));
        }
    }
    None
}

/// Whether a node of this size in bytes can lie at an address: it begins at a multiple of 4096, and each of its blocks
/// lies in the map, by its own address.
pub fn is_mapped(ranges: &[MapRange], nodesize: u32, address: u64) -> bool
    ensures { result ≡ is_mapped ranges.now nodesize address }
{
    address % 4096 == 0 && are_mapped(ranges, nodesize / 4096, address)
}

/// Whether each of `count` blocks from an address on lies in the map.
fn are_mapped(ranges: &[MapRange], count: u32, address: u64) -> bool
    ensures { result ≡ are_mapped ranges.now count address }
{
    for i in 0..count {
        if place(ranges, address as u128 + 4096 * i as u128).is_none() {
            return false;
        }
    }
    true
}
