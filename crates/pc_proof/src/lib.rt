//! Answers with what shows them, the rules that such answers keep, and the law that an answer that breaks none is right.
#![tactic(auto)]

mod agreement;
mod answer;
mod counting;
mod document;
mod forms;
mod laws;
mod narrowing;
mod programs;
mod samples;
mod verdicts;

pub use agreement::right_answers_agree;
pub use answer::{
    AlwaysBy, Answer, Bounded, End, Lack, Mark, NeverBy, Proof, Relation, Why, always_has_value,
};
pub use counting::{
    counts_are_worth_their_rows, possible_rows_are_an_allocation, possible_rows_are_in_cells,
};
pub use document::{Block, BlockTree, Document};
pub use forms::{formed_answers_have_form, formed_documents_have_form};
pub use laws::{
    folds_are_observed, given_ends_do_not_cross, unbroken_are_right, unbroken_is_right,
};
pub use narrowing::{allows_name, narrowed, some_allows};
pub use programs::program_of;
pub use verdicts::{broken_or_unbroken, demands_are_the_rules, one_first_broken, one_verdict};
