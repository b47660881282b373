ghost use Rattle.std.specs.Prelude.{◌≡◌, ◌+◌, ◌≤◌, length};
ghost use Rattle.btr_space_items.specs.Stripe.{stripe_layout, stripe_at, stripe_of, stripe_bytes};

use btr_keys::btrfs_format::size::STRIPE_SIZE;
use btr_keys::{Field, array_at, put_fields, u64_at};

/// Where a chunk lies on a device: 32 bytes, as the Btrfs on-disk format documentation has it.
#[derive(Clone, Copy, Debug, PartialEq, Eq)]
pub struct Stripe {
    /// The device's number.
    pub devid: u64,
    /// The physical address on the device in bytes.
    pub offset: u64,
    /// The device's identifier.
    pub device_uuid: [u8; 16],
}

impl Stripe {
    /// The bytes of a value.
    pub const SIZE: usize = STRIPE_SIZE;

    /// The value in the 32 bytes from byte `at` on.
    pub fn at(bytes: &[u8], at: usize) -> Stripe
        requires { at + 32 ≤ length bytes.now }
        ensures { result ≡ stripe_at bytes.now at }
    {
        Stripe::first(&bytes[at..])
    }

    fn first(bytes: &[u8]) -> Stripe
        requires { 32 ≤ length bytes.now }
        ensures { result ≡ stripe_layout.read bytes.now }
    {
        Stripe {
            devid: u64_at(bytes, 0),
            offset: u64_at(bytes, 8),
            device_uuid: array_at(bytes, 16),
        }
    }

    /// The value that is the whole body; None exactly where the body has another length than 32 bytes.
    pub fn read(body: &[u8]) -> Option<Stripe>
        ensures { result ≡ stripe_of body.now }
    {
        if body.len() == Stripe::SIZE {
            Some(Stripe::first(body))
        } else {
            None
        }
    }

    /// Writes the value into the 32 bytes of a slice.
    #[tactic(auto, unfolding(crate::specs::Stripe::stripe_layout))]
    pub fn write(&self, into: &mut [u8])
        requires { length into.old ≡ 32 }
        ensures { into.new ≡ stripe_bytes self.now }
    {
        put_fields(
            into,
            &[
                Field::U64(self.devid),
                Field::U64(self.offset),
                Field::Bytes(&self.device_uuid),
            ],
        );
    }

    /// The 32 bytes of the value.
    pub fn to_bytes(&self) -> [u8; 32]
        ensures { result ≡ stripe_bytes self.now }
    {
        let mut bytes = [0; 32];
        self.write(&mut bytes);
        bytes
    }
}
