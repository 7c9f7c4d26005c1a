//! The words of a call of `pc_desk`, read as what is asked, or told as `clap` tells them; with laws on how plain words are read.
#![tactic(auto)]

mod call;
mod form;
mod found;
mod laws;
mod parser;
mod texts;

pub use call::{
    Ask, Call, Draft, Files, History, Limit, Opens, Session, Sql, Trial, Weigh, Why, read_call,
};
pub use form::{DrawnForm, Form, SheetForm};
pub use laws::{
    plain_words_are_a_session, plain_words_are_a_trial, plain_words_are_asked,
    plain_words_ask_for_a_draft, plain_words_ask_for_history, plain_words_ask_for_limits,
    plain_words_ask_for_sql, plain_words_ask_to_weigh, plain_words_ask_what_opens,
    plain_words_ask_why,
};
