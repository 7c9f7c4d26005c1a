//! The nodes of a search by number: which are open, greatest bound first, and the box of each.
#![tactic(auto)]

mod boxes;
mod frontier;
mod laws;
mod node;
mod ring;

pub use frontier::Frontier;
pub use laws::{
    four_calls_split_no_node, leaves_divide_the_box, other_calls_keep_the_tree, roots_are_trees,
    splits_divide_a_leaf, splits_in_range_keep_the_fit, trees_have_boxes,
};
