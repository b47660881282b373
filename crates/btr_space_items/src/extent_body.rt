ghost use Rattle.std.specs.Prelude.{◌≡◌, ◌<◌, ◌^◌, List, length};
ghost use Rattle.std.specs.List.{sum_by};
ghost use Rattle.btr_space_items.specs.ExtentBody.{extent_body_of, extent_body_size};
ghost use Rattle.btr_space_items.specs.InlineRef.{ref_uses};

use crate::extent_head::ExtentHead;
use crate::inline_ref::InlineRef;

/// How many bytes the body of an extent with these references has.
pub fn extent_body_size(refs: &[InlineRef]) -> usize
    requires few { length refs.now < 2 ^ 32 }
    ensures { result ≡ extent_body_size refs.now }
{
    let mut size = ExtentHead::SIZE;
    for reference in refs {
        size += reference.size();
    }
    size
}

/// Writes the body of an extent with these references into a slice of its size: the transaction that made it, what it
/// holds, and how many uses of it there are. The references stand in the order in which they are given.
pub fn write_extent_body(generation: u64, flags: u64, refs: &[InlineRef], into: &mut [u8])
    requires few { length refs.now < 2 ^ 32 }
    requires size { length into.old ≡ extent_body_size refs.now }
    ensures { into.new ≡ extent_body_of generation flags refs.now }
{
    let head = ExtentHead {
        refs: all_uses(refs),
        generation,
        flags,
    };
    head.write(&mut into[..ExtentHead::SIZE]);
    let mut at = ExtentHead::SIZE;
    for reference in refs {
        let end = at + reference.size();
        reference.write(&mut into[at..end]);
        at = end;
    }
}

/// How many uses the references stand for together.
fn all_uses(refs: &[InlineRef]) -> u64
    requires few { length refs.now < 2 ^ 32 }
    ensures { result ≡ sum_by ref_uses refs.now }
{
    let mut uses = 0;
    for reference in refs {
        uses += u64::from(reference.uses());
    }
    uses
}
