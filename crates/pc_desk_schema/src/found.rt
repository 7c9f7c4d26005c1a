ghost use Rattle.std.specs.Prelude.{◌≡◌, ◌≤◌, ◌<◌, ◌+◌, ◌++◌, ◌^◌, ◌∷◌, [], drop, length, IfOk};
ghost use Rattle.csv.specs.Reading.{default_config, records, strip_bom};
ghost use Rattle.csv.specs.Records.{fields_of};
ghost use Rattle.pc_model.specs.WellFormed.{AreColumns, IsColumn};
ghost use Rattle.pc_schema.specs.SchemaFile.{LackName};
ghost use Rattle.pc_desk_schema.specs.Draft.{found_for, nothing_found, remark_on, with_column, with_drafted, with_further, with_left, with_next, zero_remarks};
ghost use Rattle.pc_desk_schema.specs.Sound.{IsSound};

use crate::column::{Fitted, column_of};
use crate::said::{Odd, Remark, Said};
use csv::ByteRecord;
use pc_list::Seq;
use pc_model::Column;
use pc_num::Memory;
use std::alloc::Global;

const MOST_COLUMNS: usize = 12;

/// What is found for the names so far: how many they are, the columns that are drafted, what is said of columns, and how many
/// more fit.
#[derive(Debug, Drop)]
pub(crate) struct Found {
    pub count: usize,
    pub columns: Seq<Column>,
    pub remarks: Seq<Remark>,
    pub further: usize,
}

/// What is found for the names, one after the other.
#[tactic(auto, using(std::proofs::lemmas::List::Sums::fold_more))]
pub(crate) fn found_for(
    alloc: Global,
    text: &[u8],
    header: &ByteRecord,
    names: &[Seq<u8>],
) -> Result<Found, Memory>
    ensures value { IfOk result (λ found. found ≡ found_for (fields_of header.now) (drop 1 (records default_config (strip_bom text.now))) nothing_found names.now) }
    ensures sound { IfOk result IsSound }
{
    let mut found = Found {
        count: 0,
        columns: Seq::new(alloc),
        remarks: Seq::new(alloc),
        further: 0,
    };
    for name in names {
        found = with_next(alloc, text, header, found, name.as_slice())?;
    }
    Ok(found)
}

#[tactic(auto, unfolding(crate::specs::Draft::with_next))]
fn with_next(
    alloc: Global,
    text: &[u8],
    header: &ByteRecord,
    found: Found,
    name: &[u8],
) -> Result<Found, Memory>
    requires room { found.count + 1 < 2 ^ 64 }
    requires sound { IsSound found }
    ensures value { IfOk result (λ next. next ≡ with_next (fields_of header.now) (drop 1 (records default_config (strip_bom text.now))) found name.now) }
    ensures sound { IfOk result IsSound }
    ensures count { IfOk result (λ next. next.count ≡ found.count + 1) }
{
    match column_of(alloc, text, header, found.columns.as_slice(), name)? {
        Ok(fitted) => with_column(alloc, found, fitted),
        Err(said) => with_left(alloc, found, name, said),
    }
}

#[tactic(auto, unfolding(crate::specs::Draft::with_column))]
fn with_column(alloc: Global, found: Found, fitted: Fitted) -> Result<Found, Memory>
    requires room { found.count + 1 < 2 ^ 64 }
    requires sound { IsSound found }
    requires is_column { IsColumn fitted.column }
    requires fresh { LackName fitted.column.name found.columns }
    ensures value { IfOk result (λ next. next ≡ with_column found fitted) }
    ensures sound { IfOk result IsSound }
    ensures count { IfOk result (λ next. next.count ≡ found.count + 1) }
{
    if MOST_COLUMNS <= found.columns.len() {
        return Ok(with_further(found));
    }
    with_drafted(alloc, found, fitted)
}

#[tactic(auto, using(pc_schema::proofs::Names::more_columns))]
fn with_drafted(alloc: Global, found: Found, fitted: Fitted) -> Result<Found, Memory>
    requires room { found.count + 1 < 2 ^ 64 }
    requires few { length found.columns < 12 }
    requires sound { IsSound found }
    requires is_column { IsColumn fitted.column }
    requires fresh { LackName fitted.column.name found.columns }
    ensures value { IfOk result (λ next. next ≡ with_drafted found fitted) }
    ensures sound { IfOk result IsSound }
    ensures count { IfOk result (λ next. next.count ≡ found.count + 1) }
{
    let Fitted { column, zero } = fitted;
    let Found {
        count,
        mut columns,
        remarks,
        further,
    } = found;
    let remarks = with_zero(alloc, remarks, count, column.name.as_bytes(), zero)?;
    columns.push(column)?;
    Ok(Found {
        count: count + 1,
        columns,
        remarks,
        further,
    })
}

// The remarks, and one more where a 0 is lost.
fn with_zero(
    alloc: Global,
    remarks: Seq<Remark>,
    before: usize,
    name: &[u8],
    zero: Option<Odd>,
) -> Result<Seq<Remark>, Memory>
    requires { before + 1 < 2 ^ 64 }
    ensures { IfOk result (λ all. all ≡ remarks ++ zero_remarks before name.now zero) }
{
    match zero {
        Some(odd) => with_remark(alloc, remarks, before, name, Said::Zero(odd)),
        None => Ok(remarks),
    }
}

fn with_remark(
    alloc: Global,
    mut remarks: Seq<Remark>,
    before: usize,
    name: &[u8],
    said: Said,
) -> Result<Seq<Remark>, Memory>
    requires { before + 1 < 2 ^ 64 }
    ensures { IfOk result (λ all. all ≡ remarks ++ remark_on before name.now said ∷ []) }
{
    remarks.push(Remark {
        number: before as u64 + 1,
        name: Seq::from_slice(alloc, name)?,
        said,
    })?;
    Ok(remarks)
}

fn with_further(found: Found) -> Found
    requires room { found.count + 1 < 2 ^ 64 }
    requires sound { IsSound found }
    ensures value { result ≡ with_further found }
    ensures sound { IsSound result }
{
    let Found {
        count,
        columns,
        remarks,
        further,
    } = found;
    Found {
        count: count + 1,
        columns,
        remarks,
        further: further + 1,
    }
}

fn with_left(alloc: Global, found: Found, name: &[u8], said: Said) -> Result<Found, Memory>
    requires room { found.count + 1 < 2 ^ 64 }
    requires sound { IsSound found }
    ensures value { IfOk result (λ next. next ≡ with_left found name.now said) }
    ensures sound { IfOk result IsSound }
    ensures count { IfOk result (λ next. next.count ≡ found.count + 1) }
{
    let Found {
        count,
        columns,
        remarks,
        further,
    } = found;
    let remarks = with_remark(alloc, remarks, count, name, said)?;
    Ok(Found {
        count: count + 1,
        columns,
        remarks,
        further,
    })
}
