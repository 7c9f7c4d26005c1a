//! Programs of counts: which counts they allow, what these are worth, and the bound that multipliers prove.
#![tactic(auto)]

mod allocation;
mod bound;
mod laws;
mod left;
mod program;
mod running;
mod short;
mod tables;
mod walk;
mod width;

pub use allocation::{lawful, total_of};
pub use bound::dual_bound;
pub use laws::{
    bounds_hold, nodes_spell_their_splits, relaxed_bounds_hold, trees_bound_allocations,
    void_means_none,
};
pub use left::rest;
pub use program::{Program, is_box, is_program};
pub use walk::tree_bound;
