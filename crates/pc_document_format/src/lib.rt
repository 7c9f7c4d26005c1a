//! Formats by lines: what a text of lines says, and the first line of it that may not stand.
#![tactic(auto)]

mod laws;
mod lines;

pub use laws::{
    bytes_have_lines, line_feeds_count_lines, line_feeds_number_lines, lines_read_back,
    listed_lines_are_lines, samples_end_at_places, samples_read_back, samples_tell, texts_join,
};
pub use lines::{line_end, line_of};
