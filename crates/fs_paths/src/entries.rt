ghost use Rattle.std.specs.Prelude.{◌≡◌, ◌≤◌, true, false, length, filter, slice_range};
ghost use Rattle.std.specs.List.Sorted.{IsPartitionPoint};
ghost use Rattle.std.specs.Ordering.{is_lt, is_le};
ghost use Rattle.fs_paths.specs.Spread.{AscendByDirectory, is_of, node_cmp};

use crate::{NodeId, NodeLink};

/// The links of a directory, out of links that ascend by their directory.
pub fn links_of<'a>(links: &'a [NodeLink], dir: NodeId) -> &'a [NodeLink]
    requires { AscendByDirectory links.now }
    ensures { result.now ≡ filter (is_of dir) links.now }
{
    let (first, end) = bounds_of(links, dir);
    &links[first..end]
}

/// Where the links of a directory begin and end.
fn bounds_of(links: &[NodeLink], dir: NodeId) -> (usize, usize)
    requires { AscendByDirectory links.now }
    ensures ordered { result.0 ≤ result.1 }
    ensures within { result.1 ≤ length links.now }
    ensures between { slice_range links.now result.0 result.1 ≡ filter (is_of dir) links.now }
{
    (first_of(links, dir), end_of(links, dir))
}

/// The place of the first link of a directory, or where it would stand.
fn first_of(links: &[NodeLink], dir: NodeId) -> usize
    requires { AscendByDirectory links.now }
    ensures within { result ≤ length links.now }
    ensures parts { IsPartitionPoint (λ link. is_lt (node_cmp link.dir dir) ≡ true) (λ link. is_lt (node_cmp link.dir dir) ≡ false) links.now result }
{
    links.partition_point(|link| link.dir < dir)
}

/// The place behind the last link of a directory.
fn end_of(links: &[NodeLink], dir: NodeId) -> usize
    requires { AscendByDirectory links.now }
    ensures within { result ≤ length links.now }
    ensures parts { IsPartitionPoint (λ link. is_le (node_cmp link.dir dir) ≡ true) (λ link. is_le (node_cmp link.dir dir) ≡ false) links.now result }
{
    links.partition_point(|link| link.dir <= dir)
}
