// Bodies of records that end with a name: an inode's names, and the entries of directories.
ghost use Rattle.std.specs.Prelude.{◌≡◌, ◌<◌, ◌≤◌, ◌+◌, List, ℕ, length, Some, IsSome, slice_get};
ghost use Rattle.std.specs.Option.{option_map, option_copied};
ghost use Rattle.vol_block.specs.Volume.{field};
ghost use Rattle.btr_keys.specs.Repeated.{behind_named, starts, at_least_one};

use std::marker::Model;
use vol_block::u16_at;

/// A body of one or more records of one form: a head of `HEAD` bytes, and the name, whose length stands in the two bytes
/// from byte `AT` of the head on. A contract sees a list: for each record the bytes from its begin on.
#[derive(Debug, Drop)]
pub(crate) struct Records<'a, const HEAD: usize, const AT: usize> {
    body: &'a [u8],
    count: usize,
}

impl<'a, const HEAD: usize, const AT: usize> Model for Records<'a, HEAD, AT> {
    ghost use Rattle.std.specs.Prelude.{◌≡◌, ◌<◌, ◌≤◌, ◌+◌, List, ℕ, Some, length, unwrap_or, []};
    ghost use Rattle.btr_keys.specs.Repeated.{behind_named, starts};

    ghost Value = { List (List ℕ) };

    ghost view = { λ v. unwrap_or (starts (behind_named HEAD AT) v.body.now) [] };

    ghost invariant = { λ v. (starts (behind_named HEAD AT) v.body.now ≡ Some (unwrap_or (starts (behind_named HEAD AT) v.body.now) [])) × (v.count ≡ length (unwrap_or (starts (behind_named HEAD AT) v.body.now) [])) × (AT + 2 ≤ HEAD) × (HEAD < 256) };
}

impl<'a, const HEAD: usize, const AT: usize> Records<'a, HEAD, AT> {
    /// The records of a body; None exactly where it is not one or more whole records.
    pub(crate) fn read(body: &'a [u8]) -> Option<Records<'a, HEAD, AT>>
        requires within { AT + 2 ≤ HEAD }
        requires short { HEAD < 256 }
        ensures { result ≡ at_least_one (starts (behind_named HEAD AT) body.now) }
    {
        let count = record_count::<HEAD, AT>(body)?;
        if count == 0 {
            None
        } else {
            Some(Records { body, count })
        }
    }

    /// How many records there are.
    pub(crate) fn len(&self) -> usize
        ensures { result ≡ length self.now }
    {
        self.count
    }

    /// The bytes from the begin of record `i` on. It goes over the records before it.
    pub(crate) fn start(&self, i: usize) -> &'a [u8]
        requires { i < length self.now }
        ensures there { slice_get self.now i ≡ Some result.now }
        ensures head { HEAD ≤ length result.now }
        ensures name { HEAD + field 2 result.now AT ≤ length result.now }
    {
        record_start::<HEAD, AT>(self.body, i)
    }
}

/// The bytes behind the record that a slice begins with; None where it is not whole.
#[tactic(auto, unfolding(crate::specs::Repeated::behind_named))]
fn behind<const HEAD: usize, const AT: usize>(bytes: &[u8]) -> Option<&[u8]>
    requires within { AT + 2 ≤ HEAD }
    requires short { HEAD < 256 }
    ensures { option_copied result ≡ behind_named HEAD AT bytes.now }
{
    if bytes.len() < HEAD {
        return None;
    }
    let end = HEAD + u16_at(bytes, AT) as usize;
    if bytes.len() < end {
        None
    } else {
        Some(&bytes[end..])
    }
}

/// How many records a body is; None where it ends within one.
fn record_count<const HEAD: usize, const AT: usize>(body: &[u8]) -> Option<usize>
    requires within { AT + 2 ≤ HEAD }
    requires short { HEAD < 256 }
    ensures { result ≡ option_map length (starts (behind_named HEAD AT) body.now) }
{
    let mut rest = body;
    let mut count = 0;
    while !rest.is_empty() {
        rest = behind::<HEAD, AT>(rest)?;
        count += 1;
    }
    Some(count)
}

/// The bytes from the begin of record `i` on.
fn record_start<const HEAD: usize, const AT: usize>(body: &[u8], i: usize) -> &[u8]
    requires within { AT + 2 ≤ HEAD }
    requires short { HEAD < 256 }
    ensures whole { (all : List (List ℕ)) → starts (behind_named HEAD AT) body.now ≡ Some all → i < length all → IsSome (behind_named HEAD AT result.now) }
    ensures there { (all : List (List ℕ)) → starts (behind_named HEAD AT) body.now ≡ Some all → i < length all → slice_get all i ≡ Some result.now }
{
    let mut rest = body;
    for _ in 0..i {
        let Some(after) = behind::<HEAD, AT>(rest) else {
            return rest;
        };
        rest = after;
    }
    rest
}
