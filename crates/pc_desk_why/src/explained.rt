use pc_desk_parts::Part;
use pc_list::{Seq, Text};

/// What is found of an end: the parts that make it up, or that it is not reached.
#[derive(Debug, Drop)]
pub enum MadeEnd {
    Parts(Seq<Part>),
    NotReached,
}

/// What is found of an answer: its ends, that there is no value, or that the constraints are impossible.
#[derive(Debug, Drop)]
pub enum Found {
    Ends(MadeEnd, MadeEnd),
    NoValue,
    Impossible,
}

/// What is explained of a block of a query, or of a quantile: the query in the language, the name of its group, how many decimals
/// its numbers have, whether something of its answer is not settled, whether its ends are what their parts add, as those of a
/// count and a sum, and what is found.
#[derive(Debug, Drop)]
pub struct Explained {
    pub query: Text,
    pub group: Option<Text>,
    pub places: u8,
    pub open: bool,
    pub sums: bool,
    pub found: Found,
}
