ghost use Rattle.std.specs.Prelude.{◌≡◌, ◌<◌, false, length, All, IfSome, IsTrue, MatchOption};
ghost use Rattle.pc_avg_ratio.specs.Fractional.{IsFractional, IsLawful};
ghost use Rattle.pc_avg_ratio.specs.Best.{is_above, IsHigher, IsHighestOf, IsNotHigher, HasNoRows, HasRowsAt};

use crate::fractional::{Fractional, rows_with, sum_with};
use pc_list::Seq;

/// The place of the first counts that have the greatest ratio, or none where no counts have a row.
pub fn highest_of(f: &Fractional, found: &[Seq<u64>]) -> Option<usize>
    requires fractional { IsFractional f.now }
    requires lawful { All (IsLawful f.now) found.now }
    ensures { MatchOption result (All (HasNoRows f.now) found.now) (IsHighestOf f.now found.now) }
{
    let mut best = None;
    for place in 0..found.len() {
        if is_higher(f, found, best, place) {
            best = Some(place);
        }
    }
    best
}

/// Whether the counts at a place have a row, and a greater ratio than the best ones so far.
fn is_higher(f: &Fractional, found: &[Seq<u64>], best: Option<usize>, place: usize) -> bool
    requires fractional { IsFractional f.now }
    requires lawful { All (IsLawful f.now) found.now }
    requires inside { place < length found.now }
    requires best { IfSome best (HasRowsAt f.now found.now) }
    ensures higher { IsTrue result → IsHigher f.now found.now best place }
    ensures no_higher { result ≡ false → IsNotHigher f.now found.now best place }
{
    let counts = found[place].as_slice();
    if rows_with(f, counts) <= 0 {
        return false;
    }
    let Some(before) = best else {
        return true;
    };
    is_above(f, counts, found[before].as_slice())
}

/// Whether counts have a greater ratio than others, where both have rows.
fn is_above(f: &Fractional, counts: &[u64], others: &[u64]) -> bool
    requires fractional { IsFractional f.now }
    requires lawful { IsLawful f.now counts.now }
    requires others { IsLawful f.now others.now }
    ensures { result ≡ is_above f.now counts.now others.now }
{
    sum_with(f, others) * rows_with(f, counts) < sum_with(f, counts) * rows_with(f, others)
}
