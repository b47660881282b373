ghost use Rattle.std.specs.Prelude.{◌≡◌, ◌<◌, ◌^◌};
ghost use Rattle.btr_node.specs.NodeSize.{IsNodeSize};
ghost use Rattle.btr_tree.specs.Counting.{node_bound};

use btr_node::btrfs_format::size::HEADER_SIZE;

/// The bytes of a node's checksum and head, as the Btrfs on-disk format documentation has them.
pub const HEAD_SIZE: u64 = HEADER_SIZE as u64;

/// A number that the nodes of a tree never exceed whose items take so many bytes in leaves, 25 for each item and those of
/// its body.
///
/// Two neighbouring leaves hold more than one leaf's room together, so there are at most twice as many leaves as the bytes
/// would fill, and one. Each level above has less than a sixty-fourth of the nodes below it, rounded up.
pub fn node_bound(bytes: u64, nodesize: u32) -> u64
    requires bytes { bytes < 2 ^ 60 }
    requires nodesize { IsNodeSize nodesize }
    ensures { result ≡ node_bound bytes nodesize }
{
    let capacity = nodesize as u64 - HEAD_SIZE;
    let leaves = 2 * bytes / capacity + 1;
    leaves + leaves.div_ceil(64) + 8
}
