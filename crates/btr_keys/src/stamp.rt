ghost use Rattle.std.specs.Prelude.{◌≡◌, ◌+◌, ◌≤◌, length};
ghost use Rattle.btr_keys.specs.Stamp.{stamp_at, stamp_of, stamp_bytes};

use crate::body::exactly;
use vol_block::btrfs_format::size::TIMESPEC_SIZE;
use vol_block::{Field, put_fields, u32_at, u64_at};

/// A time of an inode or a tree: 12 bytes, as the Btrfs on-disk format documentation has it.
#[derive(Clone, Copy, Debug, PartialEq, Eq)]
pub struct Stamp {
    /// Seconds since 1970, in two's complement on the device.
    pub sec: i64,
    /// Nanoseconds.
    pub nsec: u32,
}

impl Stamp {
    /// The bytes of a time.
    pub const SIZE: usize = TIMESPEC_SIZE;

    /// The time in the 12 bytes from byte `at` on.
    #[tactic(auto, unfolding(crate::specs::Stamp::stamp_layout))]
    pub fn at(bytes: &[u8], at: usize) -> Stamp
        requires { at + 12 ≤ length bytes.now }
        ensures { result ≡ stamp_at bytes.now at }
    {
        Stamp {
            sec: u64_at(bytes, at).cast_signed(),
            nsec: u32_at(bytes, at + 8),
        }
    }

    /// The time that is the whole slice; None exactly where it has another length than 12 bytes.
    pub fn read(bytes: &[u8]) -> Option<Stamp>
        ensures { result ≡ stamp_of bytes.now }
    {
        Some(Stamp::at(exactly(bytes, Stamp::SIZE)?, 0))
    }

    /// Writes the time into the 12 bytes of a slice.
    #[tactic(auto, unfolding(crate::specs::Stamp::stamp_layout))]
    pub fn write(&self, into: &mut [u8])
        requires { length into.old ≡ 12 }
        ensures { into.new ≡ stamp_bytes self.now }
    {
        put_fields(
            into,
            &[Field::U64(self.sec.cast_unsigned()), Field::U32(self.nsec)],
        );
    }

    /// The 12 bytes of the time.
    pub fn to_bytes(&self) -> [u8; 12]
        ensures { result ≡ stamp_bytes self.now }
    {
        let mut bytes = [0; 12];
        self.write(&mut bytes);
        bytes
    }
}
