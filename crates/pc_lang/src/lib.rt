//! The constraint language: what constraint files and queries stand for, and their canonical text.
#![tactic(auto)]

mod area;
mod canonical;
mod canonical_part;
mod claim;
mod files;
mod law;
mod lines;
mod meaning;
mod part;
mod put;
mod quantile;
mod query;
mod script_lines;
mod whole;

pub use files::{
    constraint_from, line_number, query_from, read_constraints, read_limits, read_query,
};
pub use law::{parts_hold, ways_hold};
pub use lines::{first_line, is_blank, is_passed_over, without_return};
pub use pc_lang_tokens::{front_name, put_name};
pub use put::{put_constraints, put_query};
pub use quantile::{Quantile, put_quantile_query, read_quantile};
pub use script_lines::{read_constraint, read_rule, rule_from};
pub use whole::is_whole;
