//! Programs of the counts of rows in cells, and searches of them: what bounds a gain, and whether wanted counts are there.
#![tactic(auto)]

mod extreme;
mod gains;
mod laws;
mod limit;
mod one_leaf;
mod probes;
mod problem;
mod programs;
mod reached;
mod targets;
mod want;

pub use extreme::Extreme;
pub use gains::{chosen_gains, chosen_program, equal_gains, gained_program, total_program};
pub use laws::{disjoint_constraints_are_easy, fitting_answers_are_formed};
pub use limit::{Limit, Sought, seek};
pub use one_leaf::flat_tree;
pub use probes::{FoundCounts, ProbeVerdict, Probed, find_wanted, probe};
pub use problem::Problem;
pub use programs::program_of;
pub use reached::{find_worth, worth};
pub use targets::{Targets, find_keys, find_targets};
pub use want::{Want, want_for};
