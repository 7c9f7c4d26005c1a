ghost use Rattle.std.specs.Prelude.{◌≡◌, All, IfOk, IfSome, option_map, position};
ghost use Rattle.pc_model.specs.WellFormed.{IsColumn};
ghost use Rattle.pc_desk_meanings.specs.Columns.{column_in, columns_near, is_called, known, names_in, none_called, of_column, unknown};

use pc_desk_records::{choice_text, kind_text, shown};
use pc_list::Seq;
use pc_model::{Column, Reason};
use pc_num::Memory;
use std::alloc::Global;

/// The column of this name.
pub(crate) fn column_in<'x>(columns: &'x [Column], name: &[u8]) -> Option<&'x Column>
    ensures found { option_map (λ column. column.now) result ≡ column_in columns.now name.now }
    ensures own { All IsColumn columns.now → IfSome result (λ column. IsColumn column.now) }
{
    match place_of(columns, name) {
        Some(place) => columns.get(place),
        None => None,
    }
}

fn place_of(columns: &[Column], name: &[u8]) -> Option<usize>
    ensures { result ≡ position (is_called name.now) columns.now }
{
    columns.iter().position(|column| is_called(name, column))
}

fn is_called(name: &[u8], column: &Column) -> bool
    ensures { result ≡ is_called name.now column.now }
{
    column.name.as_bytes() == name
}

/// What the schema has under the name of a column, of which a value is said that is refused; or that it has no such column.
pub(crate) fn of_column(
    alloc: Global,
    columns: &[Column],
    name: &[u8],
    reason: Reason,
    value: &[u8],
) -> Result<Vec<u8>, Memory>
    requires { All IsColumn columns.now }
    ensures { IfOk result (λ text. text.items ≡ of_column columns.now name.now reason value.now) }
{
    match column_in(columns, name) {
        Some(column) => known(alloc, column, reason, value),
        None => unknown(alloc, columns, name),
    }
}

fn known(alloc: Global, column: &Column, reason: Reason, value: &[u8]) -> Result<Vec<u8>, Memory>
    requires { IsColumn column.now }
    ensures { IfOk result (λ text. text.items ≡ known column.now reason value.now) }
{
    let mut text = shown(alloc, column.name.as_bytes())?;
    text.extend_from_slice(b" has ".as_slice())?;
    let kind = kind_text(alloc, &column.kind, reason, value)?;
    text.extend_from_slice(kind.as_slice())?;
    Ok(text)
}

fn unknown(alloc: Global, columns: &[Column], name: &[u8]) -> Result<Vec<u8>, Memory>
    ensures { IfOk result (λ text. text.items ≡ unknown columns.now name.now) }
{
    let mut text = none_called(alloc, name)?;
    let choice = columns_near(alloc, columns, name)?;
    text.extend_from_slice(choice.as_slice())?;
    Ok(text)
}

#[tactic(auto, unfolding(crate::specs::Columns::none_called))]
fn none_called(alloc: Global, name: &[u8]) -> Result<Vec<u8>, Memory>
    ensures { IfOk result (λ text. text.items ≡ none_called name.now) }
{
    let mut text = Vec::from_slice(alloc, b"no column is called ".as_slice())?;
    let asked = shown(alloc, name)?;
    text.extend_from_slice(asked.as_slice())?;
    text.extend_from_slice(b": the schema has ".as_slice())?;
    Ok(text)
}

// The names of columns, and which of them is nearest to a name.
#[tactic(auto, unfolding(crate::specs::Columns::columns_near))]
fn columns_near(alloc: Global, columns: &[Column], name: &[u8]) -> Result<Vec<u8>, Memory>
    ensures { IfOk result (λ text. text.items ≡ columns_near columns.now name.now) }
{
    let names = names_in(alloc, columns)?;
    choice_text(alloc, b" columns".as_slice(), name, names.as_slice())
}

#[tactic(auto, using(crate::proofs::Columns::steps), unfolding(crate::specs::Columns::names_in))]
fn names_in(alloc: Global, columns: &[Column]) -> Result<Seq<Seq<u8>>, Memory>
    ensures { IfOk result (λ names. names ≡ names_in columns.now) }
{
    let mut names = Seq::new(alloc);
    for column in columns {
        let name = Seq::from_slice(alloc, column.name.as_bytes())?;
        names.push(name)?;
    }
    Ok(names)
}
