//! The checker: whether a document breaks no rule, or the first line that breaks one.
#![tactic(auto)]

mod answers;
mod asked;
mod block;
mod block_tree;
mod document;
mod ends;
mod lacks;
mod line_counts;
mod lines;
mod matter;
mod observed;
mod premises;
mod relations;
mod runs;
mod same;
mod totals;
mod verdict;

pub use document::check;
pub use verdict::Verdict;
