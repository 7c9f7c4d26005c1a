ghost use Rattle.std.specs.Prelude.{◌≡◌, ◌≤◌, IfOk, OnOk};
ghost use Rattle.pc_model.specs.Membership.{row_from as row};
ghost use Rattle.pc_rows.specs.Stored.{row_limit};
ghost use Rattle.pc_gen.specs.Draws.{after};
ghost use Rattle.pc_gen.specs.Generated.{after_rows, drawn_row, drawn_rows};

use crate::draws::Draws;
use pc_num::Memory;
use pc_rows::Rows;
use std::alloc::Global;

/// So many rows.
pub(crate) fn draw_rows(alloc: Global, draws: &mut Draws, count: u32) -> Result<Rows, Memory>
    requires few { count ≤ row_limit }
    ensures rows { IfOk result (λ rows. rows ≡ drawn_rows count draws.old.state) }
    ensures state { OnOk result (draws.new.state ≡ after_rows count draws.old.state) }
{
    let mut rows = Rows::new(alloc);
    for _ in 0..count {
        let cells = draw_cells(draws);
        rows.push_cells(&cells)?;
    }
    Ok(rows)
}

// The numbers of a row: the place of its branch, its day, and its price in hundredths.
fn draw_cells(draws: &mut Draws) -> [i64; 3]
    ensures cells { row result ≡ drawn_row draws.old.state }
    ensures state { draws.new.state ≡ after 3 draws.old.state }
{
    let branch = i64::from(draws.draw(4));
    let day = i64::from(1 + draws.draw(31));
    let price = i64::from(draws.draw(100_001));
    [branch, day, price]
}
