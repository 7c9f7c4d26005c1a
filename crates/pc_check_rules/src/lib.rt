//! The judgement of the parts of a block: its tree of cuts, the cells of it, and the proof of each statement.
#![tactic(auto)]

mod bounds;
mod cells;
mod cuts;
mod ends;
mod extreme;
mod fractions;
mod gains;
mod halt;
mod laws;
mod numbers;
mod programs;
mod ratios;
mod rules;
mod scene;
mod settled;
mod shown;
mod statements;
mod tree_line;
mod trees;
mod walk;

pub use cells::{GatheredCell, cells_of};
pub use cuts::judge_cuts;
pub use ends::{judge_high, judge_low};
pub use extreme::Extreme;
pub use halt::Halt;
pub use laws::formed_values_are_measured;
pub use programs::{chosen_program, even_program, program_towards};
pub use rules::{
    CUTS, HIGH_ENDS, LACKS, LEAVES, LOW_ENDS, MULTIPLIERS, NAMES_AND_TREES, POSSIBLE_RUNS,
    RELATIONS, SPLITS, VALUES_OF_RUNS,
};
pub use scene::Scene;
pub use statements::{judge_always, judge_never, judge_why};
