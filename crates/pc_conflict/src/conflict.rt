use pc_list::Seq;
use pc_model::Run;

/// Which constraints contradict each other, by their places in the list: none, with a list of rows that is possible for all;
/// members none of which is to spare, with a list for the others of each; or a test that the budget left open.
#[derive(Debug, PartialEq, Eq, Drop)]
pub enum Conflict {
    Possible(Seq<Run>),
    Core {
        members: Seq<u32>,
        without: Seq<Seq<Run>>,
    },
    Undecided {
        tested: Seq<u32>,
    },
}
