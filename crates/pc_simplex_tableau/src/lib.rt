//! Rows of whole numbers, and the steps by which they solve a relaxation exactly.
#![tactic(auto)]

mod aim;
mod change;
mod choice;
mod columns;
mod end_laws;
mod laws;
mod limit;
mod numbers;
mod row;
mod rows;
mod run;
mod start_laws;
mod step;
mod tableau;
mod whole_laws;

pub use aim::divide_together;
pub use columns::Columns;
pub use end_laws::{ends_are_relaxed, helpers_left_mean_void, short_constraints_mean_void};
pub use laws::{
    limits_leave_room, pivots_keep_meaning, pivots_keep_standing, runs_keep_standing,
    steps_keep_standing, turns_keep_meaning, turns_keep_standing,
};
pub use limit::{Limit, Way, lesser, own_limit};
pub use numbers::make_primitive;
pub use row::{WholeRow, negate};
pub use run::{WholeRun, take_steps};
pub use start_laws::{first_rows_stand, freed_rows_stand, second_phase_stands};
pub use step::Step;
pub use tableau::Tableau;
pub use whole_laws::{vertices_are_greatest, vertices_stand, voids_hold_nothing};
