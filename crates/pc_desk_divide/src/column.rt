//! What is asked of a column, and of a text for its parts.
ghost use Rattle.std.specs.Prelude.{◌≡◌, ◌<◌, IfSome, length};
ghost use Rattle.pc_desk_divide.specs.Reading.{has_names, is_called, is_divided, is_of_names, parts_of, parts_within, place_of};

use crate::division::Division;
use pc_model::{Column, Kind, read_number};

/// Where the column of a name stands.
pub fn place_of(columns: &[Column], name: &[u8]) -> Option<usize>
    ensures place { result ≡ place_of columns.now name.now }
    ensures there { IfSome result (λ place. place < length columns.now) }
{
    columns.iter().position(|column| is_called(name, column))
}

fn is_called(name: &[u8], column: &Column) -> bool
    ensures { result ≡ is_called name.now column.now }
{
    column.name.as_bytes() == name
}

/// Whether the column at a place is one of names.
pub(crate) fn has_names(columns: &[Column], place: usize) -> bool
    ensures { result ≡ has_names columns.now place }
{
    match columns.get(place) {
        Some(column) => is_of_names(&column.kind),
        None => false,
    }
}

fn is_of_names(kind: &Kind) -> bool
    ensures { result ≡ is_of_names kind.now }
{
    match kind {
        Kind::Int { .. } => false,
        Kind::Dec { .. } => false,
        Kind::Cat { .. } => true,
    }
}

/// Whether a division of the column stands before.
pub(crate) fn is_divided(before: &[Division], column: usize) -> bool
    ensures { result ≡ is_divided before.now column }
{
    before.iter().any(|division| division.column == column)
}

/// A number of parts.
#[tactic(auto, unfolding(crate::specs::Reading::parts_of))]
pub(crate) fn parts_of(text: &[u8]) -> Option<u64>
    ensures { result ≡ parts_of text.now }
{
    match read_number(text, 0) {
        Ok(number) => parts_within(number),
        Err(_) => None,
    }
}

fn parts_within(number: i64) -> Option<u64>
    ensures { result ≡ parts_within number }
{
    if 1 <= number && number <= 20 {
        return Some(number.unsigned_abs());
    }
    None
}
