//! Laws of sample volumes: what the layout that `reiser_make` writes means to whoever reads it.
//!
//! Each law is the contract of a function that does nothing.
#![tactic(auto)]

mod laws;

pub use laws::{
    inner_nodes_read_back, leaves_read_back, sample_inner_nodes_read_back, sample_leaves_read_back,
    sample_trees_are_sound, samples_are_accepted, samples_are_as_described, samples_are_clean,
    samples_are_walked, samples_ascend, samples_fit_their_heads, samples_have_names,
    samples_have_objects, samples_have_their_rows, samples_hold_their_blocks,
    samples_hold_their_items, samples_keep_grammar, samples_keep_tree_rules, samples_mark_system,
    samples_mark_used,
};
