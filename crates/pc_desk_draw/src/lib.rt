//! Answers drawn: as a chart in characters, and as one SVG picture.
#![tactic(auto)]

mod axis;
mod bar;
mod bar_size;
mod bars;
mod chart;
mod elements;
mod escape;
mod grid;
mod laws;
mod layout;
mod legend;
mod names;
mod numbers;
mod picture;
mod place;
mod question;
mod rows;
mod scale;
mod segment;
mod segments;
mod shapes;
mod size;
mod span;
mod stacked;
mod texts;

pub use bars::bars_picture;
pub use chart::chart_of;
pub use laws::{all_on_axis, places_rise, segments_are_on_axis, ticks_are_round};
pub use picture::picture_of;
pub use segment::{BarPicture, BarRow, Legend, Segment, Tone};
