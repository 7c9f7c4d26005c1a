//! What the ends of answers are made of, and what holds them, as a table of findings.
#![tactic(auto)]

mod bars;
mod blocks;
mod cells;
mod dividing;
mod explained;
mod explaining;
mod found;
mod laws;
mod sheet;
mod texts;
mod totals;

pub use bars::{why_bars, why_legend};
pub use explained::{Explained, Found, MadeEnd};
pub use explaining::explain;
pub use laws::{explained_ends_add_up, explanations_are_read_back, segments_lead_to_the_end};
pub use sheet::why_sheet;
