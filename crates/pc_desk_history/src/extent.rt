ghost use Rattle.std.specs.Prelude.{◌≡◌, ◌<◌, ◌^◌, IfOk};
ghost use Rattle.pc_desk_history.specs.Periods.{extent_from, extent_of, rows_in};

use pc_model::{Agg, Area, Query};
use pc_num::Memory;
use pc_rows::Rows;

/// From the least to the greatest of some numbers.
#[derive(Clone, Copy, Debug)]
pub(crate) struct Extent {
    pub low: i64,
    pub high: i64,
}

/// From the least to the greatest number that rows of an area have in a column.
#[tactic(auto, using(crate::proofs::Folding::extent_folded))]
pub(crate) fn extent_of(rows: &Rows, column: usize, area: &Area) -> Result<Option<Extent>, Memory>
    requires few { column < 2 ^ 8 }
    ensures { IfOk result (λ extent. extent ≡ extent_of column (rows_in area.now rows.now)) }
{
    let query = Query {
        agg: Agg::Count,
        column: Some(column as u8),
        chosen: area.clone()?,
        group: None,
    };
    let folded = rows.fold(&query);
    Ok(extent_from(folded.least, folded.greatest))
}

fn extent_from(low: Option<i64>, high: Option<i64>) -> Option<Extent>
    ensures { result ≡ extent_from low high }
{
    let low = low?;
    let high = high?;
    Some(Extent { low, high })
}
