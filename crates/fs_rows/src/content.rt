ghost use Rattle.std.specs.Prelude.{◌≡◌, [], replicate, IfOk};

use crate::Name;
use sink_text::Memory;
use std::alloc::Global;

/// What a row has of the bytes of its object.
#[derive(Drop)]
pub struct Content {
    /// The length of a file or a target in bytes.
    pub length: u64,
    /// The mark of a file; zeros of anything else.
    pub mark: [u8; 32],
    /// The target of a symlink; empty of anything else.
    pub target: Name,
}

/// What a row has of an object that is neither a file nor a symlink.
pub fn no_content(alloc: Global) -> Result<Content, Memory>
    ensures length { IfOk result (λ content. content.length ≡ 0) }
    ensures mark { IfOk result (λ content. content.mark ≡ replicate 32 0) }
    ensures target { IfOk result (λ content. content.target ≡ []) }
{
    Ok(Content {
        length: 0,
        mark: [0; 32],
        target: Name::new(alloc, b"")?,
    })
}
