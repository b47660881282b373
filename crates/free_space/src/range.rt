ghost use Rattle.std.specs.Prelude.{◌≡◌, ◌<◌, ◌+◌, ◌^◌, List, drop, length, slice_get, IfSome};
ghost use Rattle.free_space.specs.declared.range.Range.{Range as RangeOf};

/// A range of logical addresses, both in bytes and multiples of 4096.
#[derive(Clone, Copy, Debug, PartialEq, Eq)]
pub struct Range {
    /// Where it begins.
    pub address: u64,
    /// How long it is.
    pub length: u64,
}

/// Ranges that are in use, one after the other. A copy goes on from the same place.
pub trait UsedRanges: Copy {
    /// Those that are still to come.
    ghost ahead: { Self → List RangeOf };

    /// It may be asked.
    ghost is_live: { Self → Type 0 };

    /// The next one, where there is one.
    fn first(&self) -> Option<Range>
        requires live { is_live self.now }
        ensures next { result ≡ slice_get (ahead self.now) 0 }
        ensures small { IfSome result (λ r. r.address + r.length < 2 ^ 64) };

    /// Goes on behind the next one.
    fn pass(&mut self)
        requires live { is_live self.old }
        requires some { 0 < length (ahead self.old) }
        ensures live { is_live self.new }
        ensures next { ahead self.new ≡ drop 1 (ahead self.old) };
}
