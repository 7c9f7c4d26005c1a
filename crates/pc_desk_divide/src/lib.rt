//! Divisions of the rows of an area by columns: how they are read, and the cells into which they cut it.
#![tactic(auto)]

mod cells;
mod column;
mod cutting;
mod division;
mod fault;
mod hull;
mod laws;
mod parting;
mod pieces;
mod ranges;
mod reading;
mod texts;

pub use cells::{Cells, cells_of};
pub use column::place_of;
pub use division::{Division, Pieces};
pub use fault::DivisionFault;
pub use laws::{cells_are_apart, cells_are_areas, cells_cover, ranges_are_of_equal_width};
pub use reading::read_divisions;
