//! What is told of a row file or a schema file that is refused: the line on which the record begins, the field at which its
//! reader stopped, and what may stand there.
#![tactic(auto)]

mod begin;
mod fields;
mod front;
mod joined;
mod laws;
mod numbers;
mod rows;
mod schema;
mod texts;

pub use laws::records_begin_there;
pub use rows::{kind_text, tell_of_rows};
pub use schema::tell_of_schema;
pub use texts::{choice_text, shown};
