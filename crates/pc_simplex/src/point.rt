ghost use Rattle.std.specs.Prelude.{◌≡◌, ◌==◌, ◌<◌, ◌^◌, ◌≤ℤ◌, ◌<ℤ◌, ◌*ℤ◌, ◌+◌, List, pos, true, None, cond, IsTrue, length, All, IfOk, IfSome, SomeIff};
ghost use Rattle.pc_num.specs.declared.Frac.{Frac};
ghost use Rattle.pc_num.specs.Fractions.{IsFrac, IsQuotient};
ghost use Rattle.pc_program_bound.specs.Sums.{nat_at};
ghost use Rattle.pc_program_bound.specs.Allocation.{IsProgram, IsBox, cells_of};
ghost use Rattle.pc_program_bound.specs.Bound.{IsFit};
ghost use Rattle.pc_simplex_tableau.specs.Tableau.{row_at, is_turned};
ghost use Rattle.pc_simplex_tableau.specs.Relaxation.{phase_two, columns_of};
ghost use Rattle.pc_simplex_tableau.specs.Standing.{IsStanding, gain_two};
ghost use Rattle.pc_simplex_tableau.specs.Conditions.{IsSized, AreFitNumbers};
ghost use Rattle.pc_simplex_tableau.specs.Point.{row_of, over_at, under_at, IsCount, IsFitCount};
ghost use Rattle.pc_simplex.specs.Counts.{numerator, counted, IsFitPoint};

use crate::corner::Corner;
use pc_list::Seq;
use pc_num::{Frac, Memory};
use pc_program_bound::Program;
use std::alloc::Global;

// The greatest size of a number that fits.
const LARGEST: u128 = 170_141_183_460_469_231_731_687_303_715_884_105_727;

/// The counts at which the steps end, or none where one of them does not fit.
pub(crate) fn point(
    alloc: Global,
    p: &Program,
    floor: &[u64],
    cap: &[u64],
    tableau: &Corner,
) -> Result<Option<Seq<Frac>>, Memory>
    requires program { IsProgram p.now }
    requires inside { IsBox p.now floor.now cap.now }
    requires stands { IsStanding p.now floor.now (gain_two p.now) (phase_two p.now floor.now cap.now) tableau.now }
    requires sized { IsSized (phase_two p.now floor.now cap.now) tableau.now }
    requires fits { AreFitNumbers tableau.now }
    ensures some { IfOk result (λ found. IfSome found (IsFitPoint p.now floor.now cap.now tableau.now)) }
    ensures none { IfOk result (λ found. found ≡ None → (point : List Frac) → IsFitPoint p.now floor.now cap.now tableau.now point → ⊥) }
{
    let mut point = Seq::new(alloc);
    for cell in 0..p.masks.len() {
        match count(p, floor, cap, tableau, cell) {
            Some(count) => point.push(count)?,
            None => return Ok(None),
        }
    }
    Ok(Some(point))
}

/// The count of a cell as a reduced fraction, or none where that does not fit.
fn count(p: &Program, floor: &[u64], cap: &[u64], tableau: &Corner, cell: usize) -> Option<Frac>
    requires program { IsProgram p.now }
    requires inside { IsBox p.now floor.now cap.now }
    requires stands { IsStanding p.now floor.now (gain_two p.now) (phase_two p.now floor.now cap.now) tableau.now }
    requires sized { IsSized (phase_two p.now floor.now cap.now) tableau.now }
    requires fits { AreFitNumbers tableau.now }
    requires cell { cell < cells_of p.now }
    ensures some { IfSome result (λ count. IsCount p.now floor.now cap.now tableau.now cell count × IsFitCount count) }
    ensures none { result ≡ None → (count : Frac) → IsCount p.now floor.now cap.now tableau.now cell count → IsFitCount count → ⊥ }
{
    let (over, under) = part_of(tableau, p, cell);
    let part = reduced(over, under);
    let turned = tableau.is_turned(cell);
    let end = end(floor, cap, turned, cell);
    from_end(end, turned, &part)
}

fn reduced(over: i128, under: i128) -> Frac
    requires above { pos 0 <ℤ under }
    requires over_fits { IsFit over }
    requires under_fits { IsFit under }
    ensures { IsQuotient over under result }
{
    match Frac::new(over, under) {
        Some(part) => part,
        None => unreachable!(),
    }
}

/// The end that the count of a cell is counted from: its cap where its column is turned.
fn end(floor: &[u64], cap: &[u64], turned: bool, cell: usize) -> u64
    requires floor { cell < length floor.now }
    requires cap { cell < length cap.now }
    ensures { result ≡ cond turned (nat_at cap.now cell) (nat_at floor.now cell) }
{
    if turned { cap[cell] } else { floor[cell] }
}

/// Where a column stands, as the two numbers of a fraction: in the row that it is basic in, or at 0.
fn part_of(tableau: &Corner, p: &Program, column: usize) -> (i128, i128)
    requires aim { length tableau.now.aim ≡ columns_of p.now }
    requires rows { All (λ row. length row.numbers ≡ columns_of p.now + 1) tableau.now.rows }
    requires column { column < columns_of p.now }
    ensures over { result.0 ≡ over_at p.now tableau.now column }
    ensures under { result.1 ≡ under_at tableau.now column }
{
    match row_of(tableau, column) {
        Some(at) => { (tableau.value_at(at), tableau.entry_at(at, column)) }
        None => (0, 1),
    }
}

/// The row in which a column is basic.
fn row_of(tableau: &Corner, column: usize) -> Option<usize>
    ensures value { result ≡ row_of tableau.now column }
    ensures within { IfSome result (λ at. at < length tableau.now.rows) }
{
    for at in 0..tableau.count() {
        if tableau.is_basic_in(at, column) {
            return Some(at);
        }
    }
    None
}

/// The end and a part above it, or below it where the column is turned; none where that does not fit.
fn from_end(end: u64, turned: bool, part: &Frac) -> Option<Frac>
    requires part { IsFrac part.now }
    requires low { pos 0 ≤ℤ part.now.num }
    requires high { IsTrue turned → part.now.num ≤ℤ (pos end *ℤ part.now.den) }
    ensures { SomeIff result (IsFit (numerator end turned part.now)) (counted end turned part.now) }
{
    let whole = u128::from(end).checked_mul(part.den.unsigned_abs())?;
    let size = part.num.unsigned_abs();
    if turned {
        return fraction(whole - size, part.den);
    }
    fraction(whole.checked_add(size)?, part.den)
}

fn fraction(size: u128, den: i128) -> Option<Frac>
    ensures { SomeIff result (size < 2 ^ 127) (record { num = pos size; den = den }) }
{
    if size > LARGEST {
        return None;
    }
    Some(Frac {
        num: size as i128,
        den,
    })
}
