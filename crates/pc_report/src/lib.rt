//! The texts of answers, which are lent without what shows them (`Told`): the report of a document, its summary, and the
//! lines of runs.
#![tactic(auto)]

mod answer;
mod laws;
mod report;
mod runs;
mod summary;
mod told;
mod value;

pub use answer::put_answer;
pub use laws::{possible_runs_are_shown, reports_tell_their_blocks};
pub use report::{kind_name, put_report};
pub use runs::{put_fields, put_runs};
pub use summary::put_summary;
pub use told::{Told, ToldEnd, ToldLack, ToldMark, ToldRelation, told_mark};
pub use value::{in_column, put_value, scale_for};
