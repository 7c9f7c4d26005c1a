use pc_check_rules::Scene;
use pc_model::{Query, Schema};

/// What the statements of a block are about: its query without a group, over the part of its area that the block's
/// name keeps, and what the numbers of its proofs are made of.
#[derive(Clone, Copy, Debug)]
pub(crate) struct Matter<'a> {
    pub schema: &'a Schema,
    pub asked: &'a Query,
    pub scene: Scene<'a>,
}
