//! The paths of a tree of files, from the links of its directories: one for each way from the root, in order, with the
//! least path of the same object and how many paths that has.
//!
//! Both formats have directories whose entries name objects. A caller makes a [`NodeLink`] of each entry, and [`paths`] gives
//! the places of the tree's rows. [`reached`] gives the objects that a root reaches, over links of any form.
#![tactic(auto)]

mod entries;
mod first_path;
mod list;
mod node;
mod node_link;
mod path_found;
mod reach;
mod spread;

pub use fs_rows;
pub use fs_rows::vol_block;
pub use list::paths;
pub use node::NodeId;
pub use node_link::{NodeLink, PathTo};
pub use reach::reached;
