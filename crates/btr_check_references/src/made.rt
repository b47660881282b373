// References that are made, and their order.
ghost use Rattle.std.specs.Prelude.{◌≡◌};
ghost use Rattle.btr_check_references.specs.Counts.{is_same, made_of, order_of, ranks_of};

use btr_check_rules::btr_reader::btr_space_items::InlineRef;
use std::cmp::Ordering;

/// A reference that is made, to an extent of so many bytes at an address.
#[derive(Clone, Copy, Debug, PartialEq, Eq)]
pub struct Made {
    /// The extent's address, in bytes.
    pub start: u64,
    /// In bytes.
    pub length: u64,
    /// What refers to it. How often it does is not told here.
    pub by: InlineRef,
}

impl Made {
    /// The numbers by which references ascend: those of the extent, then those of what refers to it.
    fn ranks(&self) -> [u64; 7]
        ensures { result ≡ ranks_of (made_of self.now) }
    {
        let kind = self.by.kind() as u64;
        match self.by {
            InlineRef::TreeBlock { root } => [self.start, self.length, kind, root, 0, 0, 0],
            InlineRef::SharedBlock { parent } => [self.start, self.length, kind, 0, 0, 0, parent],
            InlineRef::DataRef {
                root,
                objectid,
                offset,
                ..
            } => [self.start, self.length, kind, root, objectid, offset, 0],
            InlineRef::SharedData { parent, .. } => {
                [self.start, self.length, kind, 0, 0, 0, parent]
            }
        }
    }

    /// How it stands to another one where references ascend: by the extent, then by what refers to it.
    #[tactic(auto, unfolding(crate::specs::Counts::order_of))]
    pub fn order(&self, other: &Made) -> Ordering
        ensures { result ≡ order_of (made_of self.now) (made_of other.now) }
    {
        self.ranks().cmp(&other.ranks())
    }

    /// Whether both are to the same extent, by the same tree, node, file or leaf.
    pub fn is_same(&self, other: &Made) -> bool
        ensures { result ≡ is_same (made_of self.now) (made_of other.now) }
    {
        self.ranks() == other.ranks()
    }
}
