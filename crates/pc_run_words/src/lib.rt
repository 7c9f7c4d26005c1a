//! The words of a call, read as a command; with laws on how plain words, `--`, `--nodes` and other options are read.
#![tactic(auto)]

mod command;
mod form;
mod given;
mod laws;
mod number;

pub use command::{
    Bound, Check, Command, Conflict, Gen, Quantile, Session, Show, USUAL_NODES, read_command,
};
pub use laws::{
    nodes_leave_the_other_words, other_options_are_refused, plain_words_are_read_as_they_stand,
    words_after_two_dashes_stand,
};
