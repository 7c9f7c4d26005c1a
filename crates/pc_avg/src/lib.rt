//! Sure ranges of averages under any constraints: exact fractions by steps of searched programs.
#![tactic(auto)]

mod averages;
mod copies;
mod ends;
mod fractions;
mod outermost;
mod sides;

pub use averages::bound_avg;
pub use pc_agg::Settled as AvgStart;
