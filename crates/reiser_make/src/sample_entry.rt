ghost use Rattle.std.specs.Prelude.{◌≡◌};
ghost use Rattle.reiser_make.specs.Content.{file_of, state_behind, content_of, state_after, is_further_name, is_symlink, IsSmallContent};

use crate::draw::Draws;

/// What a name of a sample stands for.
#[derive(Clone, Copy, Debug, PartialEq, Eq)]
pub enum SampleEntry {
    /// A further name of the file before it.
    Name,
    /// A symlink to the name before it.
    Symlink,
    /// A file of so many whole blocks of 4096 bytes and so many bytes behind them. In a sparse one every second block is
    /// a hole.
    File { whole: u16, rest: u16, sparse: bool },
}

impl SampleEntry {
    /// What name `i` stands for, by the next draws.
    #[tactic(auto, unfolding(crate::specs::Content::content_of, crate::specs::Content::state_after))]
    pub fn draw(i: u32, draws: &mut Draws) -> SampleEntry
        ensures content { result ≡ content_of i draws.old.state }
        ensures state { draws.new.state ≡ state_after i draws.old.state }
        ensures small { IsSmallContent result }
    {
        if is_further_name(i) {
            SampleEntry::Name
        } else if is_symlink(i) {
            SampleEntry::Symlink
        } else {
            let class = draws.draw(5);
            draw_file(class, draws)
        }
    }
}

/// Whether name `i` is a further name of the file before it.
pub fn is_further_name(i: u32) -> bool
    ensures { result ≡ is_further_name i }
{
    i % 10 == 9
}

fn is_symlink(i: u32) -> bool
    ensures { result ≡ is_symlink i }
{
    i % 50 == 24
}

/// A file of a class, by the next draws.
fn draw_file(class: u16, draws: &mut Draws) -> SampleEntry
    ensures content { result ≡ file_of class draws.old.state }
    ensures state { draws.new.state ≡ state_behind class draws.old.state }
    ensures small { IsSmallContent result }
{
    match class {
        0 => file(0, draws.draw(2049), false),
        1 => file(0, 2049 + draws.draw(1500), false),
        2 => {
            let whole = 1 + draws.draw(8);
            file(whole, 1 + draws.draw(3000), false)
        }
        3 => file(1 + draws.draw(20), 0, false),
        _ => file(2 + draws.draw(10), 0, true),
    }
}

fn file(whole: u16, rest: u16, sparse: bool) -> SampleEntry
    ensures { result ≡ SampleEntry.File whole rest sparse }
{
    SampleEntry::File {
        whole,
        rest,
        sparse,
    }
}
