ghost use Rattle.std.specs.Prelude.{◌≡◌, [], length, IfOk, All};
ghost use Rattle.pc_model.specs.WellFormed.{HasFewNames, HaveFewNames, IsWellFormed};

mod each_group;
pub(crate) mod folds;

use crate::SHOP;
use crate::stored::numbers as numbers_of_pairs;
use pc_list::{Seq, Text};
use pc_model::{Column, FileKind, Kind, Reason, Refusal, Row, Schema};
use pc_rows::{Case, Rows, read_row, read_rows};
use pc_schema::read_schema;
use std::alloc::{AllocError, Global};
use std::test::Fail;

// The rows (3, 1), (7, 4) and (9, 4).
pub(crate) fn three_rows(alloc: Global) -> Result<Rows, Fail>
    ensures { IfOk result (λ rows. All (λ row. length row.cells ≡ 2) rows) }
{
    let mut rows = Rows::new(alloc);
    rows.push_cells(&[3, 1])?;
    rows.push(Row {
        cells: Seq::from_slice(alloc, &[7, 4])?,
    })?;
    rows.push_cells(&[9, 4])?;
    Ok(rows)
}

#[test]
fn cells_stay_in_order(rt: HostRuntime) -> Result<(), Fail> {
    let alloc = rt.alloc();
    let rows = three_rows(alloc)?;
    assert_eq!(rt; rows.count(), 3);
    let found = numbers_of_pairs(alloc, &rows)?;
    assert!(rt; found.as_slice() == [3, 1, 7, 4, 9, 4].as_slice());
    Ok(())
}

pub(crate) fn column(alloc: Global, name: &str, kind: Kind) -> Result<Column, AllocError>
    requires { HasFewNames kind }
    ensures { IfOk result (λ column. HasFewNames column.kind) }
{
    Ok(Column {
        name: Text::from_text(alloc, name)?,
        kind,
    })
}

fn branches(alloc: Global) -> Result<Kind, AllocError>
    ensures { IfOk result HasFewNames }
{
    let mut names = Seq::new(alloc);
    names.push(Text::from_text(alloc, "Chicago")?)?;
    names.push(Text::from_text(alloc, "NewYork")?)?;
    names.push(Text::from_text(alloc, "Trenton")?)?;
    Ok(Kind::Cat { names })
}

// A name that comes twice, as in no schema of a file.
fn repeated_name(alloc: Global) -> Result<Kind, AllocError>
    ensures { IfOk result HasFewNames }
{
    let mut names = Seq::new(alloc);
    names.push(Text::from_text(alloc, "Paris")?)?;
    names.push(Text::from_text(alloc, "A,B")?)?;
    names.push(Text::from_text(alloc, "A,B")?)?;
    Ok(Kind::Cat { names })
}

// A branch, a day of a month, and a price up to 1000.00.
fn sales(alloc: Global, branches: Kind) -> Result<Schema, AllocError>
    requires { HasFewNames branches }
    ensures few { IfOk result (λ schema. HaveFewNames schema.columns) }
    ensures three { IfOk result (λ schema. length schema.columns ≡ 3) }
{
    let day = Kind::Int { low: 1, high: 31 };
    let price = Kind::Dec {
        scale: 2,
        low: 0,
        high: 100_000,
    };
    let mut columns = Seq::new(alloc);
    columns.push(column(alloc, "branch", branches)?)?;
    columns.push(column(alloc, "day", day)?)?;
    columns.push(column(alloc, "price", price)?)?;
    Ok(Schema { columns })
}

// The numbers of rows of three columns, row by row.
fn numbers(alloc: Global, rows: &Rows) -> Result<Vec<i64>, AllocError>
    requires { All (λ row. length row.cells ≡ 3) rows.now }
{
    let mut numbers = Vec::new(alloc);
    for place in 0..rows.count() {
        numbers.push(rows.cell(place, 0))?;
        numbers.push(rows.cell(place, 1))?;
        numbers.push(rows.cell(place, 2))?;
    }
    Ok(numbers)
}

// The numbers of a file of sales.
fn numbers_of_text(alloc: Global, schema: &Schema, text: &[u8]) -> Result<Vec<i64>, Fail>
    requires few { HaveFewNames schema.now.columns }
    requires three { length schema.now.columns ≡ 3 }
{
    let rows = read_rows(alloc, schema, text)?;
    Ok(numbers(alloc, &rows)?)
}

// It is read as its first place. Other files are among the trials of row files.
#[test]
fn name_that_comes_twice(rt: HostRuntime) -> Result<(), Fail> {
    let schema = sales(rt.alloc(), repeated_name(rt.alloc())?)?;
    let text = b"branch,day,price\n\"A,B\",3,1\n";
    let found = numbers_of_text(rt.alloc(), &schema, text)?;
    assert!(rt; found.as_slice() == [1, 3, 100].as_slice());
    Ok(())
}

#[tactic(auto, using(pc_model::proofs::FewNames::have_few_names))]
fn is_row_fault(alloc: Global, schema: &Schema, text: &[u8]) -> bool
    requires well_formed { IsWellFormed schema.now }
{
    match read_row(alloc, schema, text, 7) {
        Err(Refusal::Fault(fault)) => {
            fault.file == FileKind::Script && fault.place == 7 && fault.reason == Reason::FieldCount
        }
        _ => false,
    }
}

// Two records, which no line of a script has.
#[test]
fn rows_of_two_lines(rt: HostRuntime) -> Result<(), Fail> {
    let schema = read_schema(rt.alloc(), SHOP)?;
    let text = b"Trenton,9,10.00\nTrenton,9,10.00";
    assert!(rt; is_row_fault(rt.alloc(), &schema, text));
    Ok(())
}

// A case is seen as its parts.
fn case_of(schema: Schema, rows: Rows, alloc: Global) -> Case
    ensures schema { result.schema ≡ schema }
    ensures rows { result.rows ≡ rows }
    ensures constraints { result.constraints ≡ [] }
    ensures queries { result.queries ≡ [] }
{
    Case {
        schema,
        rows,
        constraints: Seq::new(alloc),
        queries: Seq::new(alloc),
    }
}

#[test]
fn a_case_has_its_parts(rt: HostRuntime) -> Result<(), Fail> {
    let alloc = rt.alloc();
    let schema = sales(alloc, branches(alloc)?)?;
    let case = case_of(schema, three_rows(alloc)?, alloc);
    assert_eq!(rt; case.schema.columns.len(), 3);
    assert_eq!(rt; case.rows.count(), 3);
    assert!(rt; case.constraints.is_empty());
    assert!(rt; case.queries.is_empty());
    Ok(())
}
