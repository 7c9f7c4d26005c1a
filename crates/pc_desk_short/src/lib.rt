//! Why constraints allow no lost rows at all: as one sum, where some of them need more rows than
//! others have room for, and else by which of them contradict each other.
#![tactic(auto)]

mod claim;
mod clash;
mod clash_line;
mod lacks;
mod laws;
mod multipliers;
mod shortage;
mod text;
mod weight;

pub use claim::Claim;
pub use clash::{Clash, clash_of};
pub use clash_line::{ClashLine, clash_lines};
pub use laws::{clashes_are_impossible, short_constraints_are_impossible};
pub use shortage::{Shortage, shortage_by};
pub use text::{needs_text, put_name_in, rooms_text};
