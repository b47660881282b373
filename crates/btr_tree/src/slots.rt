ghost use Rattle.std.specs.Prelude.{◌≡◌, ◌<◌, ◌≤◌, ◌↔◌, IsTrue, Some, drop, length, slice_get};

use btr_node::CopyList;
use std::marker::Model;

/// Addresses in bytes at which nodes may be written, as a list.
pub type Slots = CopyList<u64>;

/// Slots for nodes: the logical address of each, and its offset, which is where it lies on the device; both in bytes.
#[derive(Drop)]
pub struct NodeSlots {
    addresses: Slots,
    /// None where each lies at its own address.
    offsets: Option<Slots>,
}

impl Model for NodeSlots {
    ghost use Rattle.std.specs.Prelude.{◌≡◌, length};
    ghost use Rattle.btr_tree.specs.Slots.{SlotLists, offsets_or};

    ghost Value = { SlotLists };

    ghost view = { λ s. record { addresses = s.addresses; offsets = offsets_or s.offsets s.addresses } };

    ghost invariant = { λ s. length (offsets_or s.offsets s.addresses) ≡ length s.addresses };
}

impl NodeSlots {
    /// Slots of a volume that has each address at the offset of the same number.
    pub fn in_place(addresses: Slots) -> NodeSlots
        ensures { result ≡ record { addresses = addresses; offsets = addresses } }
    {
        NodeSlots {
            addresses,
            offsets: None,
        }
    }

    /// Slots at these addresses, the first at the first of these offsets and so on.
    pub fn mapped(addresses: Slots, offsets: Slots) -> NodeSlots
        requires { length offsets ≡ length addresses }
        ensures { result ≡ record { addresses = addresses; offsets = offsets } }
    {
        NodeSlots {
            addresses,
            offsets: Some(offsets),
        }
    }

    /// How many slots there are.
    pub fn len(&self) -> usize
        ensures addresses { result ≡ length self.now.addresses }
        ensures offsets { result ≡ length self.now.offsets }
    {
        self.addresses.len()
    }

    /// Whether there is none.
    pub fn is_empty(&self) -> bool
        ensures { IsTrue result ↔ (length self.now.addresses ≡ 0) }
    {
        self.addresses.len() == 0
    }

    /// The logical address of slot `i`.
    pub fn address(&self, i: usize) -> u64
        requires { i < length self.now.addresses }
        ensures { slice_get self.now.addresses i ≡ Some result }
    {
        self.addresses.get(i)
    }

    /// The offset of slot `i`.
    pub fn offset(&self, i: usize) -> u64
        requires { i < length self.now.addresses }
        ensures { slice_get self.now.offsets i ≡ Some result }
    {
        match &self.offsets {
            Some(offsets) => offsets.get(i),
            None => self.addresses.get(i),
        }
    }

    /// The slots without the first `n`.
    pub fn without_first(self, n: usize) -> NodeSlots
        requires { n ≤ length self.addresses }
        ensures { result ≡ record { addresses = drop n self.addresses; offsets = drop n self.offsets } }
    {
        NodeSlots {
            addresses: self.addresses.without_first(n),
            offsets: match self.offsets {
                Some(offsets) => Some(offsets.without_first(n)),
                None => None,
            },
        }
    }
}
