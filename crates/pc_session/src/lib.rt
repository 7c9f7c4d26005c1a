//! What a script does to a case: edits of its rows and constraints, the questions between them, and laws of what is held
//! at each line. A session holds it, with one tree of cuts for all questions.
#![tactic(auto)]

mod copies;
mod laws;
mod line;
mod session;

pub use copies::copies_of;
pub use laws::{edits_keep_what_is_held, lines_follow_one_another, lines_keep_what_is_held};
pub use line::{Edit, Line};
pub use session::Session;
