// Runs of numbers.
ghost use Rattle.std.specs.Prelude.{◌≡◌, ◌+◌, nat_le};
ghost use Rattle.number_runs.specs.Runs.{is_in};

/// The numbers from the first to the last, both of them. There are none where the last is below the first.
#[derive(Clone, Copy, Debug, PartialEq, Eq)]
pub struct Run {
    /// The first number.
    pub first: u64,
    /// The last one.
    pub last: u64,
}

impl Run {
    /// Whether a number is one of these.
    pub fn has(&self, number: u64) -> bool
        ensures { result ≡ is_in self.now number }
    {
        self.first <= number && number <= self.last
    }

    /// Whether another run begins no further than right behind this one.
    pub fn reaches(&self, next: &Run) -> bool
        ensures { result ≡ nat_le next.now.first (self.now.last + 1) }
    {
        next.first as u128 <= self.last as u128 + 1
    }
}
