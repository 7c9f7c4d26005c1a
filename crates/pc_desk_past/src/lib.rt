//! Constraints from history, as a call asks for them: from words, a schema and rows to a list and its text, or to why there is none.
#![tactic(auto)]

mod fault;
mod laws;
mod past;
mod refusal;
mod text;

pub use fault::PastFault;
pub use laws::drafts_hold_the_past;
pub use past::{Known, Past, recall};
pub use refusal::refusal_lines;
pub use text::past_text;
