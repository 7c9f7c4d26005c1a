//! The text of a document, and its reader.
#![tactic(auto)]

mod answer;
mod block;
mod cuts;
mod document;
mod ends;
mod halt;
mod lack;
mod laws;
mod placed;
mod placed_cuts;
mod places;
mod proof;
mod put_answer;
mod put_proof;
mod relation;
mod runs;
mod spans;
mod tags;
mod tree;
mod words;
mod writer;

pub use document::{NoDocument, read_document};
pub use laws::{
    demands_name_their_lines, documents_read_back, lines_are_bytes, one_document, reading_tells,
};
pub use writer::put_document;
