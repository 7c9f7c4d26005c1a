use pc_list::Seq;
use pc_model::Side;

/// A column, by its place in the schema, and the pieces that its numbers are cut into.
#[derive(Debug, Drop)]
pub(crate) struct Parting {
    pub column: usize,
    pub pieces: Seq<Side>,
}
