ghost use Rattle.std.specs.Prelude.{◌≡◌, ◌≤◌, ◌<◌, ◌+◌, ◌*◌, ◌^◌, slice_index};
ghost use Rattle.std.specs.List.{sum};
ghost use Rattle.btr_tree.specs.Packing.{level_sizes};

/// How many nodes a tree with so many leaves has, where an inner node has `fan_out` children at most.
pub fn count_nodes(leaves: u64, fan_out: u64) -> u64
    requires some { 1 ≤ leaves }
    requires few { leaves ≤ 2 ^ 50 }
    requires wide { 121 ≤ fan_out }
    ensures exact { result ≡ sum (level_sizes 256 fan_out leaves) }
    ensures bound { 120 * result ≤ 121 * leaves + 960 }
{
    let mut level = leaves;
    let mut nodes = leaves;
    while level > 1 {
        level = level.div_ceil(fan_out);
        nodes += level;
    }
    nodes
}

/// How many of them are of this level, 0 for the leaves.
pub fn nodes_at(leaves: u64, fan_out: u64, level: u8) -> u64
    requires some { 1 ≤ leaves }
    requires wide { 121 ≤ fan_out }
    ensures { result ≡ slice_index (level_sizes 256 fan_out leaves) level }
{
    let mut nodes = leaves;
    for _ in 0..level {
        if nodes <= 1 {
            return 0;
        }
        nodes = nodes.div_ceil(fan_out);
    }
    nodes
}
