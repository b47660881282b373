ghost use Rattle.std.specs.Prelude.{◌≡◌, ◌≤◌, length};
ghost use Rattle.btr_space_items.specs.Chunk.{chunk_layout, chunk_of, chunk_bytes};

use crate::stripe::Stripe;
use btr_keys::btrfs_format::size::{CHUNK_HEAD_SIZE, CHUNK_SIZE, STRIPE_SIZE};
use btr_keys::{Field, put_fields, u16_at, u32_at, u64_at};

/// The body of a chunk, key (256, 228, logical address in bytes): 48 bytes, and 32 for each stripe, as the Btrfs on-disk
/// format documentation has it.
#[derive(Clone, Copy, Debug, PartialEq, Eq)]
pub struct Chunk {
    /// The length of the chunk in bytes.
    pub length: u64,
    /// The number of the extent tree: 2.
    pub owner: u64,
    /// The bytes of one device before the next: 65536.
    pub stripe_len: u64,
    /// What the chunk holds: 1 data, 2 system, 4 metadata; and its profile in higher bits, 0 for single.
    pub kind: u64,
    /// The alignment of its reads and writes in bytes.
    pub io_align: u32,
    /// Their width in bytes.
    pub io_width: u32,
    /// The sector size in bytes.
    pub sector_size: u32,
    /// How many stripes there are: at least one, and one for a single chunk.
    pub num_stripes: u16,
    /// How many mirrors a striped chunk has; 0 for single.
    pub sub_stripes: u16,
    /// The first stripe.
    pub stripe: Stripe,
}

impl Chunk {
    /// The bytes of a chunk of one stripe.
    pub const SIZE: usize = CHUNK_SIZE;

    fn first(bytes: &[u8]) -> Chunk
        requires { 80 ≤ length bytes.now }
        ensures { result ≡ chunk_layout.read bytes.now }
    {
        Chunk {
            length: u64_at(bytes, 0),
            owner: u64_at(bytes, 8),
            stripe_len: u64_at(bytes, 16),
            kind: u64_at(bytes, 24),
            io_align: u32_at(bytes, 32),
            io_width: u32_at(bytes, 36),
            sector_size: u32_at(bytes, 40),
            num_stripes: u16_at(bytes, 44),
            sub_stripes: u16_at(bytes, 46),
            stripe: Stripe::at(bytes, 48),
        }
    }

    /// The chunk that is the whole body, with its first stripe alone. None exactly where there is no stripe, or the body
    /// has another length than its number of stripes says.
    pub fn read(body: &[u8]) -> Option<Chunk>
        ensures { result ≡ chunk_of body.now }
    {
        if body.len() < Chunk::SIZE {
            return None;
        }
        let stripes = u16_at(body, 44) as usize;
        if body.len() == CHUNK_HEAD_SIZE + STRIPE_SIZE * stripes {
            Some(Chunk::first(body))
        } else {
            None
        }
    }

    /// Writes a chunk of one stripe into the 80 bytes of a slice.
    #[tactic(auto, unfolding(crate::specs::Stripe::stripe_layout, crate::specs::Chunk::chunk_layout))]
    pub fn write(&self, into: &mut [u8])
        requires single { self.now.num_stripes ≡ 1 }
        requires room { length into.old ≡ 80 }
        ensures { into.new ≡ chunk_bytes self.now }
    {
        put_fields(
            into,
            &[
                Field::U64(self.length),
                Field::U64(self.owner),
                Field::U64(self.stripe_len),
                Field::U64(self.kind),
                Field::U32(self.io_align),
                Field::U32(self.io_width),
                Field::U32(self.sector_size),
                Field::U16(self.num_stripes),
                Field::U16(self.sub_stripes),
                Field::Bytes(&self.stripe.to_bytes()),
            ],
        );
    }
}
