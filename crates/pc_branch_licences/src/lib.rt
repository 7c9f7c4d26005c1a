//! When a spent budget licenses an outer end or an undecided line, and laws for those who write answers.
#![tactic(auto)]

mod extremes;
mod lacks;
mod laws;

pub use extremes::{
    attained_extremes_are_wanted, far_picks_attain, near_picks_attain,
    observed_extremes_are_attained,
};
pub use lacks::counts_tell_whether_there_is_a_value;
pub use laws::{
    attained_totals_are_worth_their_bound, found_counts_are_all_that_is_shown, licences_leave_open,
    runs_have_their_counts, search_trees_need_no_value, sharp_answers_are_licensed,
};
