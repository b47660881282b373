//! The items of the trees that tell how a converted volume's space is used: the chunk, device, checksum, extent and root trees.
//!
//! [`chunks`], [`devices`] and [`roots`] make lists. [`checksums`] and [`extents`] give streams, since these trees go by the
//! number of the volume's blocks; a stream holds its place, and its pieces and nodes are passed to each call. [`own_nodes`]
//! finds how many nodes the extent tree has, its own among them.
#![tactic(auto)]

mod chunk_lists;
mod extent_stream;
mod groups;
mod laws;
mod node;
mod own_count;
mod own_laws;
mod refs;
mod root_list;
mod stream_laws;
mod sum_stream;

pub use chunk_lists::{chunk_body, chunks, device_body, devices};
pub use extent_stream::{ExtentStream, extents};
pub use laws::{chunk_items_fit, chunks_are_one, root_items_fit};
pub use node::{NodeList, RootList, TreeNode, TreeRoot};
pub use own_count::{add_nodes, merged, own_nodes, with_own};
pub use own_laws::{own_nodes_are_needed, own_nodes_stay};
pub use root_list::roots;
pub use stream_laws::{extent_items_fit, sum_items_fit};
pub use sum_stream::{SumStream, checksums};
