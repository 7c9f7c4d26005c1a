//! The answers to several queries, grouped or not, over one tree of cuts: one of their own, or that of a session.
#![tactic(auto)]

mod answering;
mod answers;
mod asking;
mod blocks;
mod folds;
mod narrowing;
mod refining;
mod scope;
mod wanted;

pub use answers::{answer_all, answer_seen, answer_with};
pub use asking::ask;
pub use folds::folds_of;
pub use refining::{divide_for, refine_for_all};
