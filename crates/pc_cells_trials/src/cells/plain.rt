ghost use Rattle.std.specs.Prelude.{◌<◌, All};
ghost use Rattle.pc_model.specs.WellFormed.{IsWellFormed};
ghost use Rattle.pc_cells_tree.specs.Linked.{CanBeDivided};
ghost use Rattle.pc_cells.specs.Found.{IsFilled};

use pc_cells::{Cells, decompose};
use pc_lang::{read_constraints, read_query};
use pc_list::Seq;
use pc_model::{Area, Constraint, Region, Row, Schema};
use pc_num::Memory;
use pc_schema::read_schema;
use std::alloc::{AllocError, Global};
use std::test::Fail;

// The columns of a small domain, and how many rows it has.
const SMALL: &[u8] = b"a,int,0,9\nb,int,0,4\nc,cat,x,y,z\n";

const ROWS: u32 = 150;

static SETS: [&str; 7] = [
    "{x}",
    "{y}",
    "{x, y}",
    "{z}",
    "{x, z}",
    "{y, z}",
    "{x, y, z}",
];

/// Numbers of a fixed generator.
#[derive(Drop)]
struct Draws {
    state: u32,
}

impl Draws {
    /// A number below the limit.
    fn below(&mut self, limit: u32) -> u32
        requires { 0 < limit }
        ensures { result < limit }
    {
        self.state = self.state.wrapping_mul(1664525).wrapping_add(1013904223);
        (self.state >> 8) % limit
    }

    /// The ends of a span of numbers below the limit.
    fn ends(&mut self, limit: u32) -> (u32, u32)
        requires { 0 < limit }
    {
        let (one, other) = (self.below(limit), self.below(limit));
        (one.min(other), one.max(other))
    }
}

fn part(alloc: Global, draws: &mut Draws) -> Result<String, AllocError> {
    let (low, high) = draws.ends(10);
    let (least, most) = draws.ends(5);
    let set = SETS[draws.below(7) as usize];
    match draws.below(4) {
        0 => format!(in alloc; "a in {low}..{high}"),
        1 => format!(in alloc; "b in {least}..{most} and c in {set}"),
        2 => format!(in alloc; "a in {low}..{high} and b >= {least}"),
        _ => format!(in alloc; "a in {low}..{high} and b in {least}..{most} and c in {set}"),
    }
}

/// One to four parts.
fn area(alloc: Global, draws: &mut Draws) -> Result<String, AllocError> {
    let mut text = part(alloc, draws)?;
    let others = draws.below(6).saturating_sub(2);
    for _ in 0..others {
        let other = part(alloc, draws)?;
        text.push_str(" or ")?;
        text.push_str(other.as_str())?;
    }
    Ok(text)
}

/// Up to four lines with areas, and in some texts one of the rows outside before them or between them.
fn lines(alloc: Global, draws: &mut Draws) -> Result<String, AllocError> {
    let mut text = String::new(alloc);
    let count = draws.below(5);
    let outside = draws.below(6);
    for number in 0..count {
        if number == outside {
            let values = part(alloc, draws)?;
            let line = format!(in alloc; "outside => {values}, 0..1\n")?;
            text.push_str(line.as_str())?;
        }
        let when = area(alloc, draws)?;
        let values = part(alloc, draws)?;
        let line = format!(in alloc; "n{number}: {when} => {values}, 0..1\n")?;
        text.push_str(line.as_str())?;
    }
    Ok(text)
}

/// What a plain program goes by.
#[derive(Drop)]
struct Plain<'a> {
    constraints: &'a [Constraint],
    chosen: &'a Area,
}

/// The mask of a row and whether it is chosen, or none where it cannot be lost.
type Class = Option<(u32, bool)>;

impl Plain<'_> {
    fn class_of(&self, row: &Row) -> Class {
        let mut mask = 0u32;
        let mut bit = 1u32;
        for c in self.constraints {
            if c.speaks_of(self.constraints, row) {
                if !c.values.has(row) {
                    return None;
                }
                mask |= bit;
            }
            bit = bit.wrapping_mul(2);
        }
        if mask == 0 {
            return None;
        }
        Some((mask, self.chosen.has(row)))
    }

    /// The least and the greatest number of a column over the rows of a class.
    fn ends(
        &self,
        alloc: Global,
        class: Class,
        column: u8,
    ) -> Result<Option<(i64, i64)>, AllocError> {
        let mut ends = None;
        for number in 0..ROWS {
            let row = row_of(alloc, number)?;
            if self.class_of(&row) == class {
                ends = wider(ends, row.cells.as_slice().get(column as usize).copied());
            }
        }
        Ok(ends)
    }
}

fn wider(ends: Option<(i64, i64)>, number: Option<i64>) -> Option<(i64, i64)> {
    match (ends, number) {
        (Some((low, high)), Some(number)) => Some((low.min(number), high.max(number))),
        (None, Some(number)) => Some((number, number)),
        (ends, None) => ends,
    }
}

/// The row of the domain with a number: a counts fastest, then b, then c.
fn row_of(alloc: Global, number: u32) -> Result<Row, AllocError> {
    let cells = [
        (number % 10) as i64,
        (number / 10 % 5) as i64,
        (number / 50) as i64,
    ];
    Ok(Row {
        cells: Seq::from_slice(alloc, &cells)?,
    })
}

/// Whether the row is in one leaf of the cell of its class, which is there, and in no other leaf.
fn is_placed(found: &Cells, class: Class, row: &Row) -> bool {
    let mut times = 0usize;
    for cell in found.cells.as_slice() {
        let held = leaves_with(cell.leaves.as_slice(), row);
        if held > 0 && class != Some((cell.mask, cell.chosen)) {
            return false;
        }
        times = times.saturating_add(held);
    }
    times == if class.is_some() { 1 } else { 0 }
}

fn leaves_with(leaves: &[Region], row: &Row) -> usize {
    leaves.iter().filter(|leaf| leaf.has(row)).count()
}

/// Whether the cell has a row of its class, and the ends of both columns of numbers are those of the plain program.
fn cell_agrees(
    alloc: Global,
    found: &Cells,
    place: usize,
    plain: &Plain<'_>,
) -> Result<bool, Memory>
    requires { All IsFilled found.now.cells }
{
    let Some(cell) = found.cells.as_slice().get(place) else {
        return Ok(false);
    };
    let class = Some((cell.mask, cell.chosen));
    let some = found.row_at(alloc, place, 0, None, 0)?;
    Ok(
        plain.class_of(&some) == class
            && ends_agree(alloc, found, place, 0, plain)?
            && ends_agree(alloc, found, place, 1, plain)?,
    )
}

fn ends_agree(
    alloc: Global,
    found: &Cells,
    place: usize,
    column: u8,
    plain: &Plain<'_>,
) -> Result<bool, Memory>
    requires { All IsFilled found.now.cells }
{
    let Some(cell) = found.cells.as_slice().get(place) else {
        return Ok(false);
    };
    if !found.has_numbers(column) {
        return Ok(false);
    }
    let class = Some((cell.mask, cell.chosen));
    let ends = found.extreme(place, column);
    let low = found.row_at(alloc, place, ends.low_leaf, Some(column), ends.low)?;
    let high = found.row_at(alloc, place, ends.high_leaf, Some(column), ends.high)?;
    Ok(
        plain.class_of(&low) == class
            && plain.class_of(&high) == class
            && low.cells.as_slice().get(column as usize) == Some(&ends.low)
            && high.cells.as_slice().get(column as usize) == Some(&ends.high)
            && plain.ends(alloc, class, column)? == Some((ends.low, ends.high)),
    )
}

/// Whether each row of the domain is where it belongs.
fn are_placed(alloc: Global, found: &Cells, plain: &Plain<'_>) -> Result<bool, AllocError> {
    for number in 0..ROWS {
        let row = row_of(alloc, number)?;
        if !is_placed(found, plain.class_of(&row), &row) {
            return Ok(false);
        }
    }
    Ok(true)
}

fn cells_agree(alloc: Global, found: &Cells, plain: &Plain<'_>) -> Result<bool, Memory>
    requires { All IsFilled found.now.cells }
{
    for place in 0..found.cells.len() {
        if !cell_agrees(alloc, found, place, plain)? {
            return Ok(false);
        }
    }
    Ok(true)
}

fn agrees(
    alloc: Global,
    schema: &Schema,
    constraints: &[Constraint],
    chosen: &Area,
) -> Result<bool, Memory>
    requires asked { CanBeDivided schema.now constraints.now chosen.now }
{
    let found = decompose(alloc, schema, constraints, chosen)?;
    let plain = Plain {
        constraints,
        chosen,
    };
    Ok(are_placed(alloc, &found, &plain)? && cells_agree(alloc, &found, &plain)?)
}

/// Whether what is read has the cells of the plain program; false where a text is refused.
fn has_plain_cells(
    alloc: Global,
    schema: &Schema,
    text: &str,
    question: &str,
) -> Result<bool, Memory>
    requires well_formed { IsWellFormed schema.now }
{
    let Ok(constraints) = read_constraints(alloc, schema, text.as_bytes()) else {
        return Ok(false);
    };
    let Ok(query) = read_query(alloc, schema, question, 1) else {
        return Ok(false);
    };
    agrees(alloc, schema, constraints.as_slice(), &query.chosen)
}

#[test]
fn cells_of_small_domains(rt: HostRuntime) -> Result<(), Fail> {
    let alloc = rt.alloc();
    let Ok(schema) = read_schema(alloc, SMALL) else {
        return Err(Fail::new("no schema"));
    };
    let mut draws = Draws { state: 1 };
    for number in 0..200 {
        let text = lines(alloc, &mut draws)?;
        let chosen = area(alloc, &mut draws)?;
        let question = format!(in alloc; "count where {chosen}")?;
        let agrees = has_plain_cells(alloc, &schema, text.as_str(), question.as_str())?;
        assert!(rt; agrees, "domain {number}");
    }
    Ok(())
}
