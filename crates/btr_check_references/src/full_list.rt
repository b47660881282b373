ghost use Rattle.std.specs.List.Sorted.{IsNonDecreasing};

/// The addresses of nodes whose extents are full, in bytes, as they are met.
#[derive(Drop)]
pub struct FullNodesFound {
    pub addresses: Vec<u64>,
}

/// The addresses of nodes whose extents are full, in bytes, which ascend.
#[derive(Drop)]
pub struct FullNodes {
    pub addresses: Vec<u64>,
    ghost ascend: { IsNonDecreasing addresses.items },
}
