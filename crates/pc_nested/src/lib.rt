//! The allocation of greatest worth of a program of whose constraints any two share no cell, or one is inside the other.
#![tactic(auto)]

mod conditions;
mod counting;
mod filling;
mod laws;
mod narrowing;
mod ordering;
mod places;
mod pricing;
mod solving;
mod starting;

pub use conditions::is_nested;
pub use laws::{nested_cells_are_few, one_bits_are_nested};
pub use solving::solve_nested;
