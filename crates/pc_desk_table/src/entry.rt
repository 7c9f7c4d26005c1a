use pc_list::{Seq, Text};

/// Whether any lost rows are possible.
#[derive(Clone, Copy, Debug, PartialEq, Eq)]
pub enum Said {
    Possible,
    Impossible,
    Undecided,
}

/// Whether there can be no value.
#[derive(Clone, Copy, Debug, PartialEq, Eq)]
pub enum SaidLack {
    Never,
    Sometimes,
    Always,
    Undecided,
}

/// Whether an end is reached, or holds and may lie further out than what is reached.
#[derive(Clone, Copy, Debug, PartialEq, Eq)]
pub enum Mark {
    Exact,
    Outer,
}

/// The group of a block: the name of its column, and the name in it that the block is for.
#[derive(Debug, Drop)]
pub struct Group {
    pub column: Text,
    pub name: Text,
}

/// A field of a row, with the name of its column.
#[derive(Debug, Drop)]
pub struct Field {
    pub column: Text,
    pub text: Text,
}

/// A row, and how often it stands.
#[derive(Debug, Drop)]
pub struct Repeated {
    pub times: u64,
    pub fields: Seq<Field>,
}

/// A value: as `pc` prints it, which is a fraction for an average; as a decimal, which for an average has six places and is
/// rounded; and in millionths, where these are no greater than 10^38 in size.
#[derive(Debug, Drop)]
pub struct Value {
    pub text: Text,
    pub decimal: Text,
    pub millionths: Option<i128>,
}

/// An end of a range, and rows that reach it where it is exact.
#[derive(Debug, Drop)]
pub struct End {
    pub value: Value,
    pub mark: Mark,
    pub rows: Seq<Repeated>,
}

/// A range, and how far its ends are from one another, which is the difference of their decimals.
#[derive(Debug, Drop)]
pub struct Range {
    pub low: End,
    pub high: End,
    pub width: Text,
}

/// What is shown of a block: the line of its question, where a script asked it; the query in the language; what the rows that
/// are left come to, where they have a value; and the range, where there is one.
#[derive(Debug, Drop)]
pub struct Entry {
    pub line: Option<u64>,
    pub query: Text,
    pub group: Option<Group>,
    pub relation: Said,
    pub lack: Option<SaidLack>,
    pub observed: Option<Value>,
    pub range: Option<Range>,
}
