// Blocks of the device that no extent may touch.
ghost use Rattle.std.specs.Prelude.{◌≤◌, ◌<◌, ◌+◌, ◌-◌, ◌/◌, ◌^◌};
ghost use Rattle.std.specs.Bool.{Decides};
ghost use Rattle.btr_check_rules.specs.Groups.{second_of, stripes_of};
ghost use Rattle.btr_check_items.specs.Reserved.{CopyTouches, HasReserved, TouchesReserved};

use btr_check_rules::btr_reader::ChunkAt;
use btr_check_rules::btr_reader::btr_reader_walk::btr_keys::vol_block::is_reserved;
use btr_check_rules::btr_reader::btr_space_items::Stripe;
use btr_check_rules::btr_reader::btr_super::Super;

/// Reserved blocks come in groups of so many, which begin at multiples of it.
const GROUP: u64 = 16;

/// Whether one of the blocks from `first` to `last` is reserved, on a volume of `blocks` blocks.
fn has_reserved(first: u64, last: u64, blocks: u64) -> bool
    requires { last + 16 < 2 ^ 64 }
    ensures { Decides result (HasReserved first last blocks) }
{
    let mut block = first;
    while block <= last {
        if is_reserved(block, blocks) {
            return true;
        }
        block = (block / GROUP + 1) * GROUP;
    }
    false
}

/// Whether one of so many bytes, a way behind the begin of a stripe, lies in a reserved block.
fn stripe_touches(sup: &Super, stripe: u64, behind: u64, length: u64) -> bool
    requires { 1 ≤ length }
    ensures { Decides result (TouchesReserved (stripe + behind) length (sup.now.total_bytes / 4096)) }
{
    let start = stripe as u128 + behind as u128;
    let first = start / 4096;
    let last = (start + length as u128 - 1) / 4096;
    has_reserved(first as u64, last as u64, sup.total_bytes / 4096)
}

/// The same of a second stripe; there may be none.
fn second_touches(sup: &Super, stripe: &Option<Stripe>, behind: u64, length: u64) -> bool
    requires { 1 ≤ length }
    ensures { Decides result (CopyTouches (second_of stripe.now) behind length (sup.now.total_bytes / 4096)) }
{
    match stripe {
        Some(stripe) => stripe_touches(sup, stripe.offset, behind, length),
        None => false,
    }
}

/// Whether a copy of so many bytes, one or more, that begin at an address of a chunk lies on a reserved block.
pub fn touches_reserved(sup: &Super, c: &ChunkAt, start: u64, length: u64) -> bool
    requires some { 1 ≤ length }
    requires low { c.now.logical ≤ start }
    ensures { Decides result (CopyTouches (stripes_of c.now) (start - c.now.logical) length (sup.now.total_bytes / 4096)) }
{
    let behind = start - c.logical;
    let in_first = stripe_touches(sup, c.chunk.stripe.offset, behind, length);
    let in_second = second_touches(sup, &c.mirror, behind, length);
    in_first || in_second
}
