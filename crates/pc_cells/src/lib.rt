//! The cells of a domain: the classes of rows that can be lost, with their boxes, and the ends of a column over a cell.
//! The tree of cuts behind them can be kept, and refined for further areas.
#![tactic(auto)]

mod cells;
mod disjoint;
mod ends;
mod gather;
mod numbered;
mod pick;
mod shared;

pub use cells::{Cell, Cells, decompose};
pub use disjoint::pairwise_apart;
pub use ends::Ends;
pub use shared::Shared;
