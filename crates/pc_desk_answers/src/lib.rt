//! What is asked of a case, and what is shown of the answers, beside what the rows that are left come to.
#![tactic(auto)]

mod answers;
mod blocks;
mod changes;
mod entry;
mod laws;
mod question;
mod range;
mod repeated;
mod rounding;
mod trees;
mod value;
mod watch;

pub use answers::{answer_questions, ask_session};
pub use blocks::{least_of, quantile_name, query_name};
pub use changes::answer_under_each;
pub use entry::group_of;
pub use laws::left_is_the_aggregate;
pub use question::{Question, read_questions};
pub use value::places_in;
pub use watch::{Unwatched, Watch};
