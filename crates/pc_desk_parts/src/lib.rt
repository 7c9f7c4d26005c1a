//! What an end of an answer is made of, and what keeps each part of it from giving more.
#![tactic(auto)]

mod asked;
mod holds;
mod laws;
mod lost;
mod observed;
mod order;
mod part;
mod parts;
mod pulls;
mod rows;
mod stands;

pub use asked::{Asked, Reached, Seen, Side};
pub use laws::{holds_are_told, parts_add_up, parts_tell_sides, pulls_move_ends};
pub use part::{Adds, Hold, Part};
pub use parts::parts_of;
pub use stands::Stand;
