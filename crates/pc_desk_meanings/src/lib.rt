//! What is told of a line or a query that is read, and refused for what it says of the schema.
#![tactic(auto)]

mod atom;
mod column;
mod meaning;
mod piece;
mod words;

pub use atom::{Atom, refused_atom};
pub use meaning::{meaning_of_line, meaning_of_query};
