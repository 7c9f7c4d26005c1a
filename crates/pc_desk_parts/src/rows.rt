ghost use Rattle.std.specs.Prelude.{◌≡◌, ◌&&◌};
ghost use Rattle.pc_model.specs.Aggregate.{asked, is_in_group, number_at};
ghost use Rattle.pc_desk_parts.specs.Ends.{is_counted, number_of};

use pc_model::{Query, Row, is_between};

/// The row's number in a column.
pub(crate) fn number_at(row: &Row, column: usize) -> i64
    ensures { result ≡ number_at row.now column }
{
    let cells = row.cells.as_slice();
    if column < cells.len() {
        return cells[column];
    }
    0
}

/// The row's number in the query's column, and 0 where it has none.
pub(crate) fn asked(query: &Query, row: &Row) -> i64
    ensures { result ≡ asked query.now row.now }
{
    match query.column {
        Some(column) => number_at(row, usize::from(column)),
        None => 0,
    }
}

/// The row's number in the query's column.
pub(crate) fn number_of(query: &Query, row: &Row) -> Option<i64>
    ensures { result ≡ number_of query.now row.now }
{
    match query.column {
        Some(column) => Some(number_at(row, usize::from(column))),
        None => None,
    }
}

/// Whether the query speaks of the row.
pub(crate) fn is_counted(query: &Query, name: Option<u32>, row: &Row) -> bool
    ensures { result ≡ is_counted query.now name row.now }
{
    query.chosen.has(row) && is_in_group(query.group, name, row)
}

fn is_in_group(group: Option<u8>, name: Option<u32>, row: &Row) -> bool
    ensures { result ≡ is_in_group group name row.now }
{
    match (group, name) {
        (Some(column), Some(place)) => {
            let place = i64::from(place);
            is_between(place, place, number_at(row, usize::from(column)))
        }
        _ => true,
    }
}
