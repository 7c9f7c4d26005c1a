ghost use Rattle.std.specs.Prelude.{◌≡◌, ◌↔◌, IsTrue, ℕ, ◌+◌, ◌<◌, ◌≤◌, ◌≤ℤ◌, ◌<ℤ◌, pos, true, List, length};
ghost use Rattle.pc_program_bound.specs.Sums.{nat_at, int_at};
ghost use Rattle.pc_program_bound.specs.Allocation.{cells_of, constraints_of, total, IsProgram};
ghost use Rattle.pc_program.specs.Settled.{is_in};
ghost use Rattle.pc_nested.specs.Filled.{AreSmall, AreBelow, IsDearest, IsDearestIfAny, IsTopPrice, IsFilling, IsFilled};

use crate::places::{gain_of, is_in};
use pc_list::Seq;
use pc_program_bound::{Program, total_of};

/// Counts on the way to a total, the price of the last row that was added, and how many rows are left to add.
#[derive(Debug, PartialEq, Eq, Drop)]
pub(crate) struct Filling {
    pub counts: Seq<u64>,
    pub price: i128,
    pub left: u64,
}

/// Raises the counts of a constraint's cells towards their high ends, the dearest cell first, until the total is the
/// target.
#[tactic(auto, using(crate::proofs::Giving::filled))]
pub(crate) fn fill(
    p: &Program,
    place: usize,
    counts: Seq<u64>,
    highs: &[u64],
    target: u64,
) -> Filling
    requires program { IsProgram p.now }
    requires gains { AreSmall p.now }
    requires there { place < constraints_of p.now }
    requires sized { length counts ≡ cells_of p.now }
    requires sized_highs { length highs.now ≡ cells_of p.now }
    requires ordered { AreBelow p.now counts highs.now }
    requires too_few { total p.now counts place ≤ℤ pos target }
    requires enough { pos target ≤ℤ total p.now highs.now place }
    ensures { IsFilled p.now place counts highs.now result.counts result.price target }
{
    let mut filling = begin(p, place, counts, highs, target);
    while filling.left > 0 {
        let Some(cell) = dearest(p, place, filling.counts.as_slice(), highs) else {
            return filling;
        };
        filling = fill_cell(p, place, cell, filling, highs);
    }
    filling
}

/// Nothing is added yet, and all of it is left.
#[tactic(auto, using(crate::proofs::Giving::beginning))]
fn begin(p: &Program, place: usize, counts: Seq<u64>, highs: &[u64], target: u64) -> Filling
    requires program { IsProgram p.now }
    requires gains { AreSmall p.now }
    requires there { place < constraints_of p.now }
    requires sized { length counts ≡ cells_of p.now }
    requires sized_highs { length highs.now ≡ cells_of p.now }
    requires ordered { AreBelow p.now counts highs.now }
    requires too_few { total p.now counts place ≤ℤ pos target }
    ensures filling { IsFilling p.now place counts highs.now result.counts result.price result.left target }
    ensures sized { length result.counts ≡ cells_of p.now }
{
    let total = total_of(p, counts.as_slice(), place);
    let price = top_price(p, place, counts.as_slice(), highs);
    Filling {
        counts,
        price,
        left: rows_left(target, total),
    }
}

fn rows_left(target: u64, total: u128) -> u64
    requires { total ≤ target }
    ensures { total + result ≡ target }
{
    target - total as u64
}

/// Adds as many rows to a cell as are left, or as it has room for.
#[tactic(auto, using(crate::proofs::Giving::filled_cells))]
fn fill_cell(p: &Program, place: usize, cell: usize, filling: Filling, highs: &[u64]) -> Filling
    requires program { IsProgram p.now }
    requires gains { AreSmall p.now }
    requires sized { length filling.counts ≡ cells_of p.now }
    requires sized_highs { length highs.now ≡ cells_of p.now }
    requires dearest { IsDearest p.now place filling.counts highs.now (cells_of p.now) cell }
    requires some { 0 < filling.left }
    ensures filling { (lows : List ℕ) (target : ℕ) → IsFilling p.now place lows highs.now filling.counts filling.price filling.left target → IsFilling p.now place lows highs.now result.counts result.price result.left target }
    ensures sized { length result.counts ≡ cells_of p.now }
    ensures less { result.left < filling.left }
{
    let Filling {
        counts,
        price: _price,
        left,
    } = filling;
    let mut counts = counts.into_vec();
    let share = share_of(left, counts[cell], highs[cell]);
    counts[cell] += share;
    Filling {
        counts: Seq::from_vec(counts),
        price: gain_of(p, cell),
        left: left - share,
    }
}

fn share_of(left: u64, count: u64, high: u64) -> u64
    requires some { 0 < left }
    requires room { count < high }
    ensures some { 0 < result }
    ensures left { result ≤ left }
    ensures room { count + result ≤ high }
{
    let room = high - count;
    if left < room {
        return left;
    }
    room
}

/// The price of the dearest row that can still be added, or 0 where there is none.
#[tactic(auto, using(crate::proofs::Dearest::top_prices))]
fn top_price(p: &Program, place: usize, counts: &[u64], highs: &[u64]) -> i128
    requires program { IsProgram p.now }
    requires gains { AreSmall p.now }
    requires there { place < constraints_of p.now }
    requires sized { length counts.now ≡ cells_of p.now }
    requires sized_highs { length highs.now ≡ cells_of p.now }
    ensures { IsTopPrice p.now place counts.now highs.now result }
{
    let Some(cell) = dearest(p, place, counts, highs) else {
        return 0;
    };
    gain_of(p, cell)
}

/// The cell of a constraint with room whose rows are worth most, if one has room.
#[tactic(auto, using(crate::proofs::Dearest::none_yet))]
fn dearest(p: &Program, place: usize, counts: &[u64], highs: &[u64]) -> Option<usize>
    requires program { IsProgram p.now }
    requires there { place < constraints_of p.now }
    requires sized { length counts.now ≡ cells_of p.now }
    requires sized_highs { length highs.now ≡ cells_of p.now }
    ensures { IsDearestIfAny p.now place counts.now highs.now (cells_of p.now) result }
{
    let mut found = None;
    for cell in 0..p.masks.len() {
        found = dearer(p, place, counts, highs, found, cell);
    }
    found
}

/// The same with one cell more.
#[tactic(auto, using(crate::proofs::Dearest::dearer_steps))]
fn dearer(
    p: &Program,
    place: usize,
    counts: &[u64],
    highs: &[u64],
    found: Option<usize>,
    cell: usize,
) -> Option<usize>
    requires program { IsProgram p.now }
    requires there { place < constraints_of p.now }
    requires sized { length counts.now ≡ cells_of p.now }
    requires sized_highs { length highs.now ≡ cells_of p.now }
    requires cell { cell < cells_of p.now }
    requires found { IsDearestIfAny p.now place counts.now highs.now cell found }
    ensures { IsDearestIfAny p.now place counts.now highs.now (cell + 1) result }
{
    if !has_room(p, place, counts, highs, cell) {
        return found;
    }
    let Some(other) = found else {
        return Some(cell);
    };
    if is_less(p, other, cell) {
        return Some(cell);
    }
    Some(other)
}

/// Whether the cell is in the constraint and below its high end.
fn has_room(p: &Program, place: usize, counts: &[u64], highs: &[u64], cell: usize) -> bool
    requires few { place < 32 }
    requires sized { length counts.now ≡ cells_of p.now }
    requires sized_highs { length highs.now ≡ cells_of p.now }
    requires cell { cell < cells_of p.now }
    ensures { IsTrue result ↔ ((is_in p.now cell place ≡ true) × (nat_at counts.now cell < nat_at highs.now cell)) }
{
    is_in(p, cell, place) && counts[cell] < highs[cell]
}

/// Whether a row of the first cell is worth less than one of the second.
fn is_less(p: &Program, first: usize, second: usize) -> bool
    requires program { IsProgram p.now }
    requires first { first < cells_of p.now }
    requires second { second < cells_of p.now }
    ensures { IsTrue result ↔ (int_at p.now.gain first <ℤ int_at p.now.gain second) }
{
    gain_of(p, first) < gain_of(p, second)
}
