ghost use Rattle.std.specs.Prelude.{◌≡◌, ◌<◌};
ghost use Rattle.reiser_make.specs.Draw.{next_state, drawn};

/// Numbers that look random and are the same each time: the generator of Knuth's MMIX, of 64 bits.
#[derive(Clone, Copy, Debug, PartialEq, Eq)]
pub struct Draws {
    state: u64,
}

impl Draws {
    /// The numbers of a sample.
    pub fn new(number: u32) -> Draws
        ensures { result.state ≡ number }
    {
        Draws {
            state: number as u64,
        }
    }

    /// The next number below `below`.
    pub fn draw(&mut self, below: u16) -> u16
        requires { 0 < below }
        ensures state { self.new.state ≡ next_state self.old.state }
        ensures value { result ≡ drawn below (next_state self.old.state) }
        ensures bound { result < below }
    {
        self.state = self
            .state
            .wrapping_mul(6364136223846793005)
            .wrapping_add(1442695040888963407);
        (self.state / (1 << 33) % below as u64) as u16
    }
}
