use pc_list::Seq;
use pc_model::Tree;
use pc_num::Frac;

/// What the steps end in. Either counts reach a ratio and the tree shows that none has a greater one; or the budget was
/// spent at a ratio that counts have, and the tree shows what is left over there. The value is the least that this shows
/// not to be passed.
#[derive(Debug, PartialEq, Eq, Drop)]
pub enum Highest {
    Reached {
        ratio: Frac,
        counts: Seq<u64>,
        tree: Tree,
    },
    Above {
        ratio: Frac,
        counts: Seq<u64>,
        tree: Tree,
        value: Frac,
    },
}
