ghost use Rattle.std.specs.Prelude.{◌≡◌, ◌≤◌, ◌<◌, ◌+◌, ◌*◌};
ghost use Rattle.reiser_make.specs.Places.{place};

/// The first block behind the journal and its header.
pub const FIRST: u32 = 8211;

/// Block `j` of the blocks behind the journal, without the bitmap blocks: these are the multiples of 32768.
#[tactic(auto, unfolding(crate::specs::Places::place))]
pub fn place(j: u32) -> u32
    requires { j ≤ 1000000 }
    ensures place { result ≡ place j }
    ensures most { result ≤ 8211 + 2 * j + 1 }
{
    FIRST + j + (FIRST - 1 + j) / 32767
}
