//! The settled tree of cuts over a domain.
#![tactic(auto)]

mod area_stance;
mod choice;
mod decision;
mod grow;
mod growth;
mod known;
mod laws;
mod marks;
mod refine;
mod stance;
mod standing;
mod walk;

pub use grow::grown_tree;
pub use growth::Growth;
pub use laws::{kept_trees_stay_divided, parts_can_be_settled, refined_trees_stay_divided};
pub use marks::marked_trees_have_the_same_cuts;
pub use refine::{Refinement, refined};
pub use walk::marked;
