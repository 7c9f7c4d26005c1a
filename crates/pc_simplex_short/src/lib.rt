//! The steps of a relaxation over rows in short form: a number for each constraint in place of one for each column.
#![tactic(auto)]

mod aim;
mod change;
mod choice;
mod entry;
mod lesser;
mod limit;
mod narrow;
mod places;
mod read;
mod reduce;
mod row;
mod rows;
mod run;
mod setting;
mod small;
mod spell;
mod tableau;
mod together;
mod word;

pub use choice::aim_at;
pub use places::{Places, Span};
pub use read::{entry_at, value_at};
pub use row::ShortRow;
pub use run::{ShortRun, take_steps};
pub use setting::ShortSetting;
pub use spell::spell_out;
pub use tableau::ShortTableau;
