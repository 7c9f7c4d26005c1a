//! Relaxations: the point of greatest worth of a program over a box, by steps over whole numbers.
#![tactic(auto)]

mod aims;
mod columns;
mod corner;
mod first;
mod laws;
mod left;
mod multipliers;
mod phases;
mod point;
mod relaxed;
mod setting;
mod short_first;
mod short_phases;

pub use laws::{
    boxes_have_one_relaxation, vertices_are_greatest_points, vertices_are_worth_most,
    voids_show_their_boxes,
};
pub use pc_simplex_tableau::Step;
pub use relaxed::{Relaxed, relax};
