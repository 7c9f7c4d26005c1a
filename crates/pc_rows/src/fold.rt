ghost use Rattle.std.specs.Prelude.{◌≡◌, ◌<◌, length, pos, None};
ghost use Rattle.pc_rows.specs.Folds.{IsSmall, IsWithRow};
ghost use Rattle.pc_rows.specs.Stored.{row_at, row_limit};

use crate::rows::Rows;
use pc_model::{Folded, greatest_of, least_of};

// The fold of no rows.
pub(crate) fn nothing() -> Folded
    ensures { result ≡ record { count = 0; sum = pos 0; least = None; greatest = None } }
{
    Folded {
        count: 0,
        sum: 0,
        least: None,
        greatest: None,
    }
}

// The fold with the row at a place as well.
pub(crate) fn with_row(folded: Folded, column: Option<u8>, rows: &Rows, place: usize) -> Folded
    requires inside { place < length rows.now }
    requires few { folded.count < row_limit }
    requires small { IsSmall folded }
    ensures more { IsWithRow column folded (row_at rows.now place) result }
    ensures small { IsSmall result }
{
    let count = folded.count + 1;
    let Some(column) = column else {
        return Folded { count, ..folded };
    };
    let number = rows.number(place, column as usize);
    Folded {
        count,
        sum: folded.sum + i128::from(number),
        least: Some(least_of(folded.least, number)),
        greatest: Some(greatest_of(folded.greatest, number)),
    }
}
