// The nodes whose extents are full: what they refer to names the node itself, and not its tree.
ghost use Rattle.std.specs.Prelude.{◌≡◌, ◌++◌, ◌∷◌, ◌==◌, ◌&&◌, [], List, OnOk};
ghost use Rattle.std.specs.List.{list_any};
ghost use Rattle.btr_check_rules.specs.Extents.{Extent, is_full};
ghost use Rattle.btr_check_references.specs.FullNodes.{AreFullNodes, full_starts};

use crate::full_list::{FullNodes, FullNodesFound};
use btr_check_rules::btr_reader::btr_reader_walk::Memory;
use std::alloc::Global;

impl FullNodesFound {
    /// None yet.
    pub fn new(alloc: Global) -> FullNodesFound
        ensures { result.addresses.items ≡ full_starts [] }
    {
        FullNodesFound {
            addresses: Vec::new(alloc),
        }
    }

    /// Notes one more extent, by its address and by whether it is that of a full node.
    pub fn note(&mut self, start: u64, full: bool) -> Result<(), Memory>
        ensures { (extents : List Extent) (e : Extent) → e.start ≡ start → is_full e ≡ full → self.old.addresses.items ≡ full_starts extents → OnOk result (self.new.addresses.items ≡ full_starts (extents ++ e ∷ [])) }
    {
        if full {
            self.addresses.push(start)?;
        }
        Ok(())
    }

    /// All of them, to be looked up.
    pub fn sorted(self) -> FullNodes
        ensures { (extents : List Extent) → self.addresses.items ≡ full_starts extents → AreFullNodes extents result.addresses.items }
    {
        let FullNodesFound { mut addresses } = self;
        addresses.sort_unstable();
        FullNodes { addresses }
    }
}

impl FullNodes {
    /// Whether the node at an address is one of them.
    pub fn has(&self, address: u64) -> bool
        ensures { (extents : List Extent) → AreFullNodes extents self.now.addresses.items → result ≡ list_any (λ e. (e.start == address) && is_full e) extents }
    {
        self.addresses.as_slice().binary_search(&address).is_ok()
    }
}
