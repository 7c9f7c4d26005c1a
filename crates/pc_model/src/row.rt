use pc_list::Seq;

/// One number per column of the schema.
#[derive(Clone, Debug, PartialEq, Eq, Drop)]
pub struct Row {
    pub cells: Seq<i64>,
}

/// A row that stands `times` times in a list of rows.
#[derive(Clone, Debug, PartialEq, Eq, Drop)]
pub struct Run {
    pub times: u64,
    pub row: Row,
}
