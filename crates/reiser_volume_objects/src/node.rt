ghost use Rattle.std.specs.Prelude.{◌≡◌};
ghost use Rattle.reiser_volume_objects.specs.Nodes.{node_of, key_at, FitsKey};

use crate::ObjectKey;
use fs_paths::NodeId;

/// The node that stands for an object. Both of its numbers have 32 bits.
pub fn node_of(key: ObjectKey) -> NodeId
    ensures node { result ≡ node_of key }
    ensures fits { FitsKey result }
{
    NodeId {
        space: key.dir as u64,
        number: key.object as u64,
    }
}

/// The object that a node stands for.
pub fn key_at(node: NodeId) -> ObjectKey
    ensures { result ≡ key_at node }
{
    ObjectKey {
        dir: (node.space % (1 << 32)) as u32,
        object: (node.number % (1 << 32)) as u32,
    }
}
