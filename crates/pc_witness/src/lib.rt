//! Runs of rows: whether they stand for a list of lost rows that the constraints allow, and those of an allocation.
#![tactic(auto)]

mod fold;
mod laws;
mod rebuilt;
mod witness;

pub use fold::{fold_runs, total_times};
pub use laws::{allocations_are_possible, allocations_are_worth_their_rows};
pub use rebuilt::rebuild;
pub use witness::meets;
