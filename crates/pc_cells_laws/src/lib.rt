//! What the leaves of a settled tree of cuts say of rows, as laws. Nothing here knows how a tree is made.
#![tactic(auto)]

mod laws;

pub use laws::{
    classes_are_those_of_rows, leaves_are_of_the_schema, leaves_hold_rows, nodes_spell_their_tree,
    rows_are_in_one_leaf, rows_of_a_class_are_in_its_boxes, settled_leaves_know_the_class,
    settled_rows_can_be_lost,
};
