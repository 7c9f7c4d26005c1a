//! The algebra of boxes: common rows, rest, inside, apart, and the parts of a cut.
#![tactic(auto)]

mod areas;
mod common;
mod compare;
mod halves;
mod predicates;
mod rest;
mod sides;

pub use areas::{apart_from_area, inside_area};
pub use common::meet;
pub use compare::{apart, are_alike, inside};
pub use halves::{Halves, cut, divides};
pub use predicates::{speaks_of_all, speaks_of_none};
pub use rest::minus;
