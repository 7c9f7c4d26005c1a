use pc_list::Seq;

/// A field that is told: the number of its record, of which the first is the header, and what stands in it.
#[derive(Debug, PartialEq, Eq, Drop)]
pub struct Odd {
    pub number: u64,
    pub text: Seq<u8>,
}

/// What is said of a column. All but `Zero` leave it out of the schema.
#[derive(Debug, PartialEq, Eq, Drop)]
pub enum Said {
    /// It has no name: the field of the header is none.
    BadName,
    /// The header, or the call, has the name twice.
    Repeated,
    NoRows,
    /// Each field is a number, and the first that is too large with as many decimals as others need.
    TooWide(Odd),
    /// So many of so many fields are numbers, and the first that is none.
    Numbers(u64, u64, Odd),
    /// So many of so many fields are dates.
    Dates(u64, u64),
    /// More names than a column may have, and the first past them.
    ManyNames(Odd),
    /// The first field that is no name.
    NoName(Odd),
    /// The column is drafted, and this number loses a 0 at its front.
    Zero(Odd),
}

/// A column of which something is said: its number among those that are wanted, from 1, and its name.
#[derive(Debug, PartialEq, Eq, Drop)]
pub struct Remark {
    pub number: u64,
    pub name: Seq<u8>,
    pub said: Said,
}
