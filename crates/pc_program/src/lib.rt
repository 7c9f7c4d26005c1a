//! The allocation of greatest worth of a program whose constraints share no cell.
#![tactic(auto)]

mod conditions;
mod members;
mod settling;
mod sharing;
mod solving;

pub use conditions::has_one_bits;
pub use pc_program_bound::{Program, dual_bound, lawful};
pub use solving::{Solved, greedy};
