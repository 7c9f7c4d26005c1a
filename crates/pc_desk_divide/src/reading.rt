//! Which divisions a text names.
ghost use Rattle.std.specs.Prelude.{◌≡◌, ◌∷◌, ◌++◌, [], IfOk, Ok};
ghost use Rattle.pc_desk_divide.specs.Pieces.{AreDivisions};
ghost use Rattle.pc_desk_divide.specs.Reading.{Gives, cut_division, division_of, divisions_after, divisions_of, last_cut, parted, parted_at, place_of, plain, ranged, texts_of, with_division};

use crate::column::{has_names, is_divided, parts_of, place_of};
use crate::division::{Division, Pieces};
use crate::fault::{DivisionFault, Wrong, fault_of};
use crate::texts::{first_text, last_cut};
use pc_list::Seq;
use pc_model::{Column, Schema};
use std::alloc::Global;

/// Reads `COLUMN[/PARTS],..`: columns of names without PARTS, and columns of numbers with PARTS. A text between commas that is a
/// column's name as a whole has no PARTS, with a slash or without; else they stand behind its last slash. A name with a comma cannot be
/// said.
#[tactic(auto, using(crate::proofs::Accepted::divisions_accepted))]
pub fn read_divisions(
    alloc: Global,
    schema: &Schema,
    text: &[u8],
) -> Result<Seq<Division>, DivisionFault>
    ensures gives { Gives result (divisions_of schema.now text.now) }
    ensures accepted { IfOk result (AreDivisions schema.now) }
{
    divisions_from(alloc, schema.columns.as_slice(), text)
}

fn divisions_from(
    alloc: Global,
    columns: &[Column],
    text: &[u8],
) -> Result<Seq<Division>, DivisionFault>
    ensures { Gives result (divisions_after columns.now [] (texts_of text.now)) }
{
    let mut divisions = Seq::new(alloc);
    let mut rest = text;
    while let Some((first, after)) = first_text(rest) {
        divisions = with_division(alloc, columns, divisions, first)?;
        rest = after;
    }
    with_division(alloc, columns, divisions, rest)
}

fn with_division(
    alloc: Global,
    columns: &[Column],
    before: Seq<Division>,
    text: &[u8],
) -> Result<Seq<Division>, DivisionFault>
    ensures { Gives result (with_division columns.now before text.now) }
{
    match division_of(columns, before.as_slice(), text) {
        Ok(division) => with_found(before, division),
        Err(wrong) => Err(fault_of(alloc, wrong, text)),
    }
}

fn with_found(before: Seq<Division>, division: Division) -> Result<Seq<Division>, DivisionFault>
    ensures { Gives result (Ok (before ++ division ∷ [])) }
{
    let mut divisions = before;
    divisions.push(division).map_err(|_| DivisionFault::Memory)?;
    Ok(divisions)
}

#[tactic(auto, unfolding(crate::specs::Reading::division_of))]
fn division_of(columns: &[Column], before: &[Division], text: &[u8]) -> Result<Division, Wrong>
    ensures { result ≡ division_of columns.now before.now text.now }
{
    if text.is_empty() {
        return Err(Wrong::Empty);
    }
    match place_of(columns, text) {
        Some(column) => plain(columns, before, column),
        None => cut_division(columns, before, text),
    }
}

fn cut_division(columns: &[Column], before: &[Division], text: &[u8]) -> Result<Division, Wrong>
    ensures { result ≡ cut_division columns.now before.now (last_cut text.now) }
{
    match last_cut(text) {
        Some((name, parts)) => parted_at(columns, before, name, parts),
        None => Err(Wrong::NoColumn),
    }
}

fn parted_at(
    columns: &[Column],
    before: &[Division],
    name: &[u8],
    parts: &[u8],
) -> Result<Division, Wrong>
    ensures { result ≡ parted_at columns.now before.now parts.now (place_of columns.now name.now) }
{
    match place_of(columns, name) {
        Some(column) => parted(columns, before, column, parts),
        None => Err(Wrong::NoColumn),
    }
}

#[tactic(auto, unfolding(crate::specs::Reading::plain))]
fn plain(columns: &[Column], before: &[Division], column: usize) -> Result<Division, Wrong>
    ensures { result ≡ plain columns.now before.now column }
{
    if is_divided(before, column) {
        return Err(Wrong::Twice);
    }
    if has_names(columns, column) {
        return Ok(Division {
            column,
            pieces: Pieces::Names,
        });
    }
    Err(Wrong::NoParts)
}

#[tactic(auto, unfolding(crate::specs::Reading::parted))]
fn parted(
    columns: &[Column],
    before: &[Division],
    column: usize,
    parts: &[u8],
) -> Result<Division, Wrong>
    ensures { result ≡ parted columns.now before.now column parts.now }
{
    if is_divided(before, column) {
        return Err(Wrong::Twice);
    }
    if has_names(columns, column) {
        return Err(Wrong::NamesWithParts);
    }
    ranged(column, parts_of(parts))
}

fn ranged(column: usize, parts: Option<u64>) -> Result<Division, Wrong>
    ensures { result ≡ ranged column parts }
{
    match parts {
        Some(parts) => Ok(Division {
            column,
            pieces: Pieces::Ranges(parts),
        }),
        None => Err(Wrong::WrongParts),
    }
}
