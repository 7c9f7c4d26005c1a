//! Constraints drafted from rows that are known: for each cell of a table what the periods that are past had of it.
#![tactic(auto)]

mod counting;
mod drafting;
mod extent;
mod laws;
mod numbers;
mod periods;
mod values;
mod widening;
mod wish;

pub use drafting::draft;
pub use laws::{
    drafts_are_apart, drafts_are_constraints, drafts_are_tight, drafts_cover,
    past_periods_are_possible,
};
pub use wish::Wish;
