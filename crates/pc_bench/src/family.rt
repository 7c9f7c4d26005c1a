use crate::draws::Draws;
use crate::shops;
use std::alloc::{AllocError, Global};

/// The greatest number of each generated column; the least is 0.
const GREATEST: u32 = 999;

/// Which constraints are made.
#[derive(Clone, Copy, Debug, PartialEq, Eq)]
pub(crate) enum Family {
    /// Spans of one column, each inside the one before.
    Nested,
    /// A random span of each column.
    Boxes { columns: u32 },
    /// Random spans of two or three of the columns.
    Sparse { columns: u32, greatest: u32 },
    /// Two to four parts: random boxes of three columns, or random spans of two or three of more columns.
    Parts { columns: u32 },
    /// A line of the rows outside, and random boxes.
    Outside { columns: u32 },
    /// A country, one of its regions or one of that region's shops, some days, and prices up to one.
    Shops,
    /// Some regions on some days, and prices up to one.
    Windows,
    /// Some regions on thirty days that begin fifteen days after those before, and prices up to one.
    Sliding,
}

impl Family {
    pub(crate) fn named(word: &str) -> Option<Family> {
        match word {
            "nested" => Some(Family::Nested),
            "three" => Some(Family::Boxes { columns: 3 }),
            "twelve" => Some(Family::Boxes { columns: 12 }),
            "four-sparse" => Some(sparse(4, GREATEST)),
            "eight-sparse" => Some(sparse(8, GREATEST)),
            "twelve-sparse" => Some(sparse(12, GREATEST)),
            "eight-grid" => Some(sparse(8, 9)),
            "three-parts" => Some(Family::Parts { columns: 3 }),
            "eight-parts" => Some(Family::Parts { columns: 8 }),
            "outside" => Some(Family::Outside { columns: 3 }),
            "shops" => Some(Family::Shops),
            "windows" => Some(Family::Windows),
            "sliding" => Some(Family::Sliding),
            _ => None,
        }
    }

    /// The lines of the schema.
    pub(crate) fn schema_text(self, alloc: Global) -> Result<String, AllocError> {
        match self {
            Family::Nested => numbers_text(alloc, 1, GREATEST),
            Family::Boxes { columns } | Family::Parts { columns } | Family::Outside { columns } => {
                numbers_text(alloc, columns, GREATEST)
            }
            Family::Sparse { columns, greatest } => numbers_text(alloc, columns, greatest),
            Family::Shops | Family::Windows | Family::Sliding => shops::schema_text(alloc),
        }
    }

    /// The lines of so many constraints.
    pub(crate) fn constraints_text(self, alloc: Global, count: u32) -> Result<String, AllocError> {
        let mut draws = Draws::new();
        let mut text = String::new(alloc);
        for number in 0..count {
            let line = self.line(alloc, &mut draws, number)?;
            text.push_str(line.as_str())?;
        }
        Ok(text)
    }

    fn line(self, alloc: Global, draws: &mut Draws, number: u32) -> Result<String, AllocError> {
        if number == 0 && matches!(self, Family::Outside { .. }) {
            let (low, high) = draws.span(GREATEST);
            return format!(in alloc; "outside => c0 in {low}..{high}, 0..1\n");
        }
        let body = self.body(alloc, draws, number)?;
        format!(in alloc; "n{number}: {body}, 0..1\n")
    }

    /// The predicate of a constraint, and its values.
    fn body(self, alloc: Global, draws: &mut Draws, number: u32) -> Result<String, AllocError> {
        match self {
            Family::Nested => nested(alloc, number),
            Family::Boxes { columns } | Family::Outside { columns } => {
                random(alloc, draws, columns)
            }
            Family::Sparse { columns, greatest } => some_columns(alloc, draws, columns, greatest),
            Family::Parts { columns } => parts(alloc, draws, columns, number),
            Family::Shops => shops::chain(alloc, draws),
            Family::Windows => shops::window(alloc, draws),
            Family::Sliding => shops::sliding(alloc, draws, number),
        }
    }
}

fn sparse(columns: u32, greatest: u32) -> Family {
    Family::Sparse { columns, greatest }
}

fn numbers_text(alloc: Global, columns: u32, greatest: u32) -> Result<String, AllocError> {
    let mut text = String::new(alloc);
    for column in 0..columns {
        let line = format!(in alloc; "c{column},int,0,{greatest}\n")?;
        text.push_str(line.as_str())?;
    }
    Ok(text)
}

/// A span that leaves out as many numbers at either end as its number says.
fn nested(alloc: Global, number: u32) -> Result<String, AllocError> {
    let low = number.min(GREATEST / 2);
    let high = GREATEST - low;
    format!(in alloc; "c0 in {low}..{high} => true")
}

fn random(alloc: Global, draws: &mut Draws, columns: u32) -> Result<String, AllocError> {
    let mut text = spans(alloc, draws, columns)?;
    text.push_str(" => true")?;
    Ok(text)
}

/// A random span of each column.
fn spans(alloc: Global, draws: &mut Draws, columns: u32) -> Result<String, AllocError> {
    let mut text = String::new(alloc);
    for column in 0..columns {
        if column > 0 {
            text.push_str(" and ")?;
        }
        let (low, high) = draws.span(GREATEST);
        let atom = format!(in alloc; "c{column} in {low}..{high}")?;
        text.push_str(atom.as_str())?;
    }
    Ok(text)
}

fn some_columns(
    alloc: Global,
    draws: &mut Draws,
    columns: u32,
    greatest: u32,
) -> Result<String, AllocError> {
    let mut text = some_spans(alloc, draws, columns, greatest)?;
    text.push_str(" => true")?;
    Ok(text)
}

/// Random spans of two or three of the columns.
fn some_spans(
    alloc: Global,
    draws: &mut Draws,
    columns: u32,
    greatest: u32,
) -> Result<String, AllocError> {
    // the columns in three groups, so that none is named twice
    let group = columns / 3;
    let last_group = group.saturating_add(group);
    let first = draws.up_to(group.saturating_sub(1));
    let second = group.saturating_add(draws.up_to(group.saturating_sub(1)));
    let (low, high) = draws.span(greatest);
    let (least, most) = draws.span(greatest);
    let mut text = format!(in alloc; "c{first} in {low}..{high} and c{second} in {least}..{most}")?;
    if draws.up_to(1) == 1 {
        let (low, high) = draws.span(greatest);
        let rest = columns.saturating_sub(last_group).saturating_sub(1);
        let last = last_group.saturating_add(draws.up_to(rest));
        let atom = format!(in alloc; " and c{last} in {low}..{high}")?;
        text.push_str(atom.as_str())?;
    }
    Ok(text)
}

/// Two to four parts, as many as the number of the constraint says.
fn parts(
    alloc: Global,
    draws: &mut Draws,
    columns: u32,
    number: u32,
) -> Result<String, AllocError> {
    let mut text = part(alloc, draws, columns)?;
    for _ in 0..number % 3 + 1 {
        text.push_str(" or ")?;
        let more = part(alloc, draws, columns)?;
        text.push_str(more.as_str())?;
    }
    text.push_str(" => true")?;
    Ok(text)
}

fn part(alloc: Global, draws: &mut Draws, columns: u32) -> Result<String, AllocError> {
    if columns <= 3 {
        return spans(alloc, draws, columns);
    }
    some_spans(alloc, draws, columns, GREATEST)
}
