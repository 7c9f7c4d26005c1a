use pc_list::{Seq, Text};

/// What stands in a cell.
#[derive(Debug, Drop)]
pub enum Cell {
    Empty,
    Word(Text),
    Count(u64),
    Truth(bool),
}

/// The name of a column, and whether its texts stand at the right, as numbers do.
#[derive(Debug, Drop)]
pub struct Title {
    pub name: Text,
    pub right: bool,
}

/// A table of findings: its titles, and in each row a cell for every one of them.
#[derive(Debug, Drop)]
pub struct Sheet {
    pub titles: Seq<Title>,
    pub rows: Seq<Seq<Cell>>,
}
