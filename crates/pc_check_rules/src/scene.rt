use crate::cells::GatheredCell;
use pc_model::{Agg, Constraint, Folded};

/// What the numbers of a block's proofs are made of: the constraints, the cells of the block's tree, the aggregate that
/// is asked for, and what the observed rows come to.
#[derive(Clone, Copy, Debug)]
pub struct Scene<'a> {
    pub constraints: &'a [Constraint],
    pub cells: &'a [GatheredCell],
    pub agg: Agg,
    pub seen: Folded,
}
