//! The lines of a document: how each kind is written, and read back.
#![tactic(auto)]

mod cut_lines;
mod cut_tokens;
mod end_lines;
mod group_lines;
mod kinds;
mod line_tokens;
mod name_laws;
mod nodes;
mod number_laws;
mod numbers;
mod pieces;
mod proof_line;
mod query_lines;
mod run_lines;
mod tags;
mod values;

pub use cut_lines::{put_cut_node, read_cut_node};
pub use end_lines::{put_end_line, read_end_line, read_outer_line};
pub use group_lines::{put_group, read_group};
pub use kinds::kinds_are_lines;
pub use nodes::{put_node, read_node};
pub use numbers::likely_number;
pub use proof_line::{put_proof_line, read_proof_line};
pub use query_lines::{put_query_line, read_query_line};
pub use run_lines::{begins_run, read_run};
pub use tags::{EndLine, ProofLine, Side};
