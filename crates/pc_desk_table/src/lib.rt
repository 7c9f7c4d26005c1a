//! What is shown of answers, and its texts: for reading, as a table of comma-separated values, and as JSON.
#![tactic(auto)]

mod columns;
mod end_data;
mod entry;
mod entry_data;
mod fields;
mod json_text;
mod laws;
mod lines;
mod members;
mod names;
mod padding;
mod record;
mod remarks;
mod sheet;
mod sheet_columns;
mod sheet_texts;
mod table;
mod text;

pub use entry::{End, Entry, Field, Group, Mark, Range, Repeated, Said, SaidLack, Value};
pub use json_text::json_of;
pub use laws::{sheets_are_read_back, tables_are_read_back, texts_fit_their_columns};
pub use lines::lines_of;
pub use sheet::{Cell, Sheet, Title};
pub use sheet_texts::{sheet_json, sheet_lines, sheet_table};
pub use table::table_of;
pub use text::shown;
