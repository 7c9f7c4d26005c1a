use pc_list::{Seq, Text};

/// A sign of the language.
#[derive(Clone, Copy, Debug, PartialEq, Eq)]
pub enum Symbol {
    Colon,
    Arrow,
    Comma,
    Dots,
    Equal,
    AtLeast,
    AtMost,
    Above,
    Below,
    OpenSet,
    CloseSet,
    OpenGroup,
    CloseGroup,
    Star,
}

/// A reserved word.
#[derive(Clone, Copy, Debug, PartialEq, Eq)]
pub enum Word {
    True,
    And,
    Or,
    In,
    Where,
    Group,
    By,
    Count,
    Sum,
    Min,
    Max,
    Avg,
    Outside,
    Quantile,
}

/// A token of a line. A number is its text, and a name is the same with or without quotes.
#[derive(Clone, Debug, PartialEq, Eq, Drop)]
pub enum Token {
    Symbol(Symbol),
    Reserved(Word),
    Number(Seq<u8>),
    Name(Text),
}
