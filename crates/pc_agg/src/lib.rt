//! Sure ranges of counts, sums, least and greatest numbers under any constraints, by searches within a budget of nodes, with
//! what shows them and what licenses that they stay open.
#![tactic(auto)]

mod aim;
mod bounds;
mod climb;
mod deciding;
mod ends;
mod extremes;
mod falling;
mod grounds;
mod judged;
mod ladder;
mod laws;
mod rungs;
mod settling;
mod stand;

pub use bounds::{bound_count, bound_sum};
pub use deciding::settle;
pub use extremes::{bound_max, bound_min};
pub use falling::falling_of;
pub use grounds::{Grounded, Grounds, Lacking, ground};
pub use judged::{relation_from, settle_found};
pub use laws::folds_are_asked_of;
pub use settling::{Settled, rows_of_cells};
