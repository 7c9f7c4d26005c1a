//! Lists and texts that contracts see as plain lists of their items and bytes.
#![tactic(auto)]

mod list;
mod text;

pub use list::Seq;
pub use text::Text;
