//! Gate netlists as syntax trees with names: the laws by which a right tree has a netlist, and this one.
#![tactic(auto)]

mod laws;

pub use laws::{
    example_is_read, large_text_has_tree, large_tree_is_refused, read_text_has_tree,
    read_tree_is_right, right_tree_is_read,
};
