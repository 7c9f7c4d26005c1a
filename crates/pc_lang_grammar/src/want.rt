use pc_lang_tokens::{Symbol, Word};

/// Which part of a text a clause is.
#[derive(Clone, Copy, Debug, PartialEq, Eq)]
pub enum Clause {
    /// The predicate of a constraint.
    Predicate,
    /// The values of a constraint.
    Values,
    /// What follows the `where` of a query.
    Chosen,
    /// What follows the `where` of a quantile.
    Measured,
}

/// What a clause wants next.
#[derive(Clone, Copy, Debug, PartialEq, Eq)]
pub enum ClauseWant {
    /// `true`, or a column.
    Part,
    /// A column.
    Column,
    /// What is said of the column.
    Claim,
    /// A number or a name.
    Either,
    Number,
    /// What follows `in`.
    Inside,
    Dots,
    /// A name of a set.
    Member,
    /// What follows it.
    Next,
    /// What follows an atom.
    Joint,
    /// What follows `true`.
    Truth,
}

/// What the line of a constraint wants next, outside of its clauses.
#[derive(Clone, Copy, Debug, PartialEq, Eq)]
pub enum LineWant {
    Head,
    Colon,
    Arrow,
    Least,
    Dots,
    Most,
    /// What a constraint is called by, alone.
    Rule,
}

/// What a query wants next, outside of its clause.
#[derive(Clone, Copy, Debug, PartialEq, Eq)]
pub enum QueryWant {
    Measure,
    /// What follows `count`.
    Counted,
    Star,
    Open,
    Column,
    Close,
    /// What follows the measure.
    Tail,
    By,
    Group,
}

/// What the query of a quantile wants next, outside of its clause.
#[derive(Clone, Copy, Debug, PartialEq, Eq)]
pub enum QuantileWant {
    Word,
    Open,
    First,
    FirstEnd,
    Second,
    SecondEnd,
    Column,
    Close,
    Tail,
}

/// What may stand at a place of a text, by what stands before it.
#[derive(Clone, Copy, Debug, PartialEq, Eq)]
pub enum Want {
    Line(LineWant),
    Clause(Clause, ClauseWant),
    Query(QueryWant),
    Quantile(QuantileWant),
    /// A query, or that of a quantile.
    Asked,
    /// Nothing more.
    End,
}

/// What a token is: numbers are alike, and so are names.
#[derive(Clone, Copy, Debug, PartialEq, Eq)]
pub enum Kind {
    Symbol(Symbol),
    Reserved(Word),
    Number,
    Name,
}
