//! The types of a case, and what its question and its answers mean.
#![tactic(auto)]

mod area;
mod constraint;
mod fault;
mod number;
mod query;
mod region;
mod row;
mod schema;
mod text;
mod tree;

pub use area::Area;
pub use constraint::{Constraint, When};
pub use fault::{Fault, FileKind, ReadStop, Reason, Refusal};
pub use number::read_number;
pub use query::{Agg, Folded, Query, greatest_of, least_of};
pub use region::{Region, Side, has_bit, is_between};
pub use row::{Row, Run};
pub use schema::{Column, Kind, Schema};
pub use text::{FILE_LIMIT, is_name, text_of};
pub use tree::{Cut, CutNode, CutTree, Leaf, LeafMark, Mult, Tree, TreeNode};
