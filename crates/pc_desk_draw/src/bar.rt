ghost use Rattle.std.specs.Prelude.{◌≡◌, ◌≤◌, ◌++◌, IfSome, OnOk, replicate};
ghost use Rattle.pc_desk_draw.specs.Bars.{bar_cell, cell, cells, high_cap, is_cap, is_place_of, last_place, low_cap};
ghost use Rattle.pc_desk_draw.specs.Places.{IsBar};

use crate::place::{Bar, Drawing};
use pc_desk_table::Mark;
use pc_num::Memory;

/// The place of the last tick.
pub(crate) const LAST_PLACE: usize = 60;

/// Appends what stands in so many columns.
#[tactic(auto, using(crate::proofs::Tables::cell_steps))]
pub(crate) fn put_cells(out: &mut Vec<u8>, drawing: Drawing, columns: usize) -> Result<(), Memory>
    requires bar { IfSome drawing.bar (IsBar last_place) }
    requires observed { IfSome drawing.observed (λ place. place ≤ last_place) }
    ensures { OnOk result (out.new.items ≡ out.old.items ++ cells drawing columns) }
{
    for column in 0..columns {
        out.push(cell(drawing, column))?;
    }
    Ok(())
}

// What stands in a column: `|` for the rows that are left, which hides no cap, else the bar.
#[tactic(auto, unfolding(crate::specs::Bars::cell))]
fn cell(drawing: Drawing, column: usize) -> u8
    requires bar { IfSome drawing.bar (IsBar last_place) }
    requires observed { IfSome drawing.observed (λ place. place ≤ last_place) }
    ensures { result ≡ cell drawing column }
{
    if is_place_of(drawing.observed, column) && !is_cap(drawing.bar, column) {
        return b'|';
    }
    bar_cell(drawing.bar, column)
}

fn is_cap(bar: Option<Bar>, column: usize) -> bool
    requires { IfSome bar (IsBar last_place) }
    ensures { result ≡ is_cap bar column }
{
    match bar {
        Some(bar) => column == bar.low || column == bar.high + 2,
        None => false,
    }
}

fn is_place_of(place: Option<usize>, column: usize) -> bool
    requires { IfSome place (λ place. place ≤ last_place) }
    ensures { result ≡ is_place_of place column }
{
    match place {
        Some(place) => column == place + 1,
        None => false,
    }
}

// A place has the column after it, so that caps stand outside of the places of a bar.
fn bar_cell(bar: Option<Bar>, column: usize) -> u8
    requires { IfSome bar (IsBar last_place) }
    ensures { result ≡ bar_cell bar column }
{
    let Some(bar) = bar else {
        return b' ';
    };
    if column == bar.low {
        return low_cap(bar.low_mark);
    }
    if column == bar.high + 2 {
        return high_cap(bar.high_mark);
    }
    if bar.low < column && column < bar.high + 2 {
        return b'=';
    }
    b' '
}

fn low_cap(mark: Mark) -> u8
    ensures { result ≡ low_cap mark }
{
    match mark {
        Mark::Exact => b'[',
        Mark::Outer => b'(',
    }
}

fn high_cap(mark: Mark) -> u8
    ensures { result ≡ high_cap mark }
{
    match mark {
        Mark::Exact => b']',
        Mark::Outer => b')',
    }
}

/// Appends a byte so many times.
pub(crate) fn put_repeated(out: &mut Vec<u8>, byte: u8, count: usize) -> Result<(), Memory>
    ensures { OnOk result (out.new.items ≡ out.old.items ++ replicate count byte) }
{
    for _ in 0..count {
        out.push(byte)?;
    }
    Ok(())
}
