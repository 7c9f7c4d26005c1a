//! Which constraints contradict each other, none of them to spare, with a list of rows for the others of each.
#![tactic(auto)]

mod conflict;
mod copies;
mod deletion;
mod laws;
mod places;
mod testing;
mod text;
mod thinning;

pub use conflict::Conflict;
pub use deletion::find;
pub use laws::texts_tell_their_answers;
pub use text::put_conflict;
