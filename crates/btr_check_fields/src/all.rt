// Answers of several tests together.
ghost use Rattle.std.specs.Prelude.{◌≡◌, ◌&&◌};

/// Whether four tests passed.
pub fn all_passed(first: bool, second: bool, third: bool, fourth: bool) -> bool
    ensures { result ≡ (first && (second && (third && fourth))) }
{
    first && second && third && fourth
}
