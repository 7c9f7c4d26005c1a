use pc_list::Seq;
use pc_model::Tree;

/// What a search answers: an allocation of greatest worth, that there is none, or, where the budget of nodes is spent,
/// a bound and the best allocation that was found below it. The tree proves what is said.
#[derive(Debug, PartialEq, Eq, Drop)]
pub enum Outcome {
    Best {
        counts: Seq<u64>,
        value: i128,
        tree: Tree,
    },
    Nothing {
        tree: Tree,
    },
    Spent {
        bound: i128,
        found: Option<Seq<u64>>,
        tree: Tree,
    },
}
