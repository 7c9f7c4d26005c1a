//! What `pc_desk` tells below the line of a refusal: where a text stops, and what may stand there.
#![tactic(auto)]

mod explaining;
mod lines;
mod meanings;
mod queries;
mod scripts;
mod sentences;
mod texts;
mod whole_files;
mod words;

pub use explaining::{About, explained};
