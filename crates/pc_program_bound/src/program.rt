ghost use Rattle.std.specs.Prelude.{◌≡◌, ◌↔◌, IsTrue, ℕ, ◌<◌, ◌≤◌, length};
ghost use Rattle.pc_program_bound.specs.Sums.{nat_at};
ghost use Rattle.pc_program_bound.specs.Allocation.{IsProgram, IsBox};

use pc_list::Seq;

/// An integer program over the counts of rows in cells. `masks`, `floor`, `cap` and `gain` have one entry a cell:
/// the constraints that the cell is in (bit j for constraint j), its least and greatest count, and what a row of it
/// is worth. `least` and `most` have one a constraint: how many rows its cells have together.
#[derive(Clone, Debug, PartialEq, Eq, Drop)]
pub struct Program {
    pub masks: Seq<u32>,
    pub least: Seq<u64>,
    pub most: Seq<u64>,
    pub floor: Seq<u64>,
    pub cap: Seq<u64>,
    pub gain: Seq<i128>,
}

/// Whether each list has its length, there are at most 20 constraints, the ends are in order, and none is above a
/// thousand million.
pub fn is_program(p: &Program) -> bool
    ensures { IsTrue result ↔ IsProgram p.now }
{
    let cells = p.masks.len();
    let constraints = p.least.len();
    if p.gain.len() != cells || p.floor.len() != cells || p.cap.len() != cells {
        return false;
    }
    if p.most.len() != constraints || constraints > 20 {
        return false;
    }
    are_ordered(p.least.as_slice(), p.most.as_slice())
        && are_ordered(p.floor.as_slice(), p.cap.as_slice())
}

/// Whether each low end is at most its high end, and no high end is above a thousand million.
fn are_ordered(lows: &[u64], highs: &[u64]) -> bool
    requires { length lows.now ≡ length highs.now }
    ensures { IsTrue result ↔ ((i : ℕ) → i < length lows.now → (nat_at lows.now i ≤ nat_at highs.now i) × (nat_at highs.now i ≤ 1_000_000_000)) }
{
    for (place, low) in lows.iter().enumerate() {
        if *low > highs[place] {
            return false;
        }
        if highs[place] > 1_000_000_000 {
            return false;
        }
    }
    true
}

/// Whether the ends are those of a box inside the program's.
pub fn is_box(p: &Program, floor: &[u64], cap: &[u64]) -> bool
    requires { IsProgram p.now }
    ensures { IsTrue result ↔ IsBox p.now floor.now cap.now }
{
    let cells = p.masks.len();
    if floor.len() != cells || cap.len() != cells {
        return false;
    }
    are_inside(p.floor.as_slice(), floor, cap, p.cap.as_slice())
}

/// Whether each range of the box is in order and inside the program's.
fn are_inside(lows: &[u64], floor: &[u64], cap: &[u64], highs: &[u64]) -> bool
    requires floors { length lows.now ≡ length floor.now }
    requires caps { length cap.now ≡ length floor.now }
    requires highs { length highs.now ≡ length floor.now }
    ensures { IsTrue result ↔ ((i : ℕ) → i < length floor.now → (nat_at lows.now i ≤ nat_at floor.now i) × (nat_at floor.now i ≤ nat_at cap.now i) × (nat_at cap.now i ≤ nat_at highs.now i)) }
{
    for (cell, low) in floor.iter().enumerate() {
        if *low < lows[cell] || *low > cap[cell] || cap[cell] > highs[cell] {
            return false;
        }
    }
    true
}
