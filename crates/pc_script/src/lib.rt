//! The reader of scripts: which edits and questions the lines of a script are, each with what those before it leave, and on
//! which lines of the file they stand.
#![tactic(auto)]

mod known;
mod laws;
mod line;
mod numbers;
mod places;
mod script;
mod words;

pub use laws::lines_have_their_numbers;
pub use numbers::said_lines;
pub use script::read_script;
