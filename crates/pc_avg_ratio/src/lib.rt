//! The greatest ratio of a sum to a number of rows over all counts that a program allows, by steps each of which searches one
//! program.
#![tactic(auto)]

mod average;
mod best;
mod fractional;
mod highest;
mod programs;
mod raised;
mod standing;
mod steps;

pub use best::highest_of;
pub use fractional::Fractional;
pub use highest::Highest;
pub use steps::greatest_ratio;
