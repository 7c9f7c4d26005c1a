use pc_list::Seq;

/// How a draft is wished: by which column rows have a period, by which columns cells are divided, by how many per cent ranges
/// and numbers are widened, and how many rows are known to be lost. Columns are places in the schema, from 0.
#[derive(Debug, Drop)]
pub struct Wish {
    pub per: Option<usize>,
    pub divided: Seq<usize>,
    pub widen: u64,
    pub lost: Option<u64>,
}
