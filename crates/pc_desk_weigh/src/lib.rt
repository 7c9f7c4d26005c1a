//! How a question's ranges change with each change of one limit of a constraint.
#![tactic(auto)]

mod change;
mod changes;
mod laws;
mod limits;
mod weighed;
mod weighing;

pub use change::{Change, Limit};
pub use laws::changed_constraints_are_constraints;
pub use weighed::Weighed;
pub use weighing::weigh;
