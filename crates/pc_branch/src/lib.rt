//! The search for the greatest worth of any program, with a tree that proves it or shows what was left open.
#![tactic(auto)]

mod end_laws;
mod ended;
mod laws;
mod one_leaf;
mod outcome;
mod point;
mod round;
mod search;
mod solving;
mod start;
mod tree;
mod visit;
mod visited;

pub use end_laws::{
    any_allocation_may_be_found, searches_show_nothing, searches_show_the_best,
    searches_show_what_is_left,
};
pub use laws::{
    large_budgets_leave_stuck_leaves, licences_are_small, parts_are_bounded, small_gains_fit,
    splits_leave_counts, whole_points_are_allocations,
};
pub use outcome::Outcome;
pub use solving::solve;
pub use start::has_fit_gains;
