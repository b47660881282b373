// Bodies of items of one length.
ghost use Rattle.std.specs.Prelude.{◌≡◌, ◌==◌, if◌then◌else◌, length, Some, None};
ghost use Rattle.std.specs.Option.{option_copied};

/// The body itself; None exactly where it has another length than `size` bytes.
pub(crate) fn exactly(body: &[u8], size: usize) -> Option<&[u8]>
    ensures { option_copied result ≡ (if length body.now == size then Some body.now else None) }
{
    if body.len() == size { Some(body) } else { None }
}
