//! Sure ranges of medians and other quantiles under any constraints, by searches within a budget of nodes, and their text;
//! with laws on which side of a number a quantile lies, over lists of numbers and over possible rows.
#![tactic(auto)]

mod agreement;
mod answer;
mod bounds;
mod climb;
mod judged;
mod laws;
mod measure;
mod past;
mod put;
mod rungs;
mod samples;
mod stand;

pub use agreement::right_quantiles_agree;
pub use answer::{QuantileAnswer, QuantileEnd, QuantileLack, QuantileRelation};
pub use bounds::bound_quantile;
pub use laws::{
    lists_of_numbers_have_a_quantile, numbers_are_within_the_candidates,
    numbers_at_an_end_are_candidates, owed_answers_are_shown, programs_bound_quantiles,
    quantiles_are_among_their_numbers, quantiles_are_there_with_least_numbers,
    shares_tell_on_which_side, sums_of_lists_are_within_those_of_cells,
    sums_of_lists_at_an_end_are_those_of_cells, sums_tell_on_which_side,
    texts_tell_their_quantiles,
};
pub use put::put_quantile;
