//! What is told of a text of the language that is not read: where reading stops, and what may stand there.
#![tactic(auto)]

mod joining;
mod kinds;
mod law;
mod showing;
mod told;
mod wanted;

pub use joining::joined;
pub use law::{all_that_may_stand_is_told, columns_are_of_the_halt};
pub use showing::shown;
pub use told::{told_of, word_told};
pub use wanted::wanted_text;
