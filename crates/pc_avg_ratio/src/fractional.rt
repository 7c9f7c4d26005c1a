ghost use Rattle.std.specs.Prelude.{◌≡◌, ◌*◌, ◌≤◌, nat_abs, pos, ◌≤ℤ◌};
ghost use Rattle.pc_proof.specs.Table.{ratio_of};
ghost use Rattle.pc_avg_ratio.specs.Fractional.{excess, over_before, rows_with, sum_with, most_rows, most_sum, IsFractional, IsLawful};

use pc_agg_search::worth;
use pc_num::Frac;
use pc_program_bound::Program;

/// A sum to be divided by a number of rows, over all counts that a program allows: what is there before, and what each row
/// of a cell adds.
#[derive(Debug, Drop)]
pub struct Fractional {
    /// A row of a cell counts once, or not at all.
    pub rows: Program,
    /// The same program, whose gains are what the rows add to the sum.
    pub sums: Program,
    pub count: u64,
    pub sum: i128,
}

/// How many rows there are.
pub(crate) fn rows_with(f: &Fractional, counts: &[u64]) -> i128
    requires fractional { IsFractional f.now }
    requires lawful { IsLawful f.now counts.now }
    ensures value { result ≡ rows_with f.now counts.now }
    ensures some { pos 0 ≤ℤ result }
    ensures few { result ≤ℤ pos most_rows }
{
    i128::from(f.count) + worth(&f.rows, counts)
}

/// Their sum.
pub(crate) fn sum_with(f: &Fractional, counts: &[u64]) -> i128
    requires fractional { IsFractional f.now }
    requires lawful { IsLawful f.now counts.now }
    ensures value { result ≡ sum_with f.now counts.now }
    ensures small { nat_abs result ≤ most_sum }
{
    f.sum + worth(&f.sums, counts)
}

/// How far the sum is above a ratio, times the denominator.
pub(crate) fn excess(f: &Fractional, ratio: Frac, counts: &[u64]) -> i128
    requires fractional { IsFractional f.now }
    requires lawful { IsLawful f.now counts.now }
    requires positive { pos 0 ≤ℤ ratio.den }
    requires small_den { ratio.den ≤ℤ pos most_rows }
    requires small_num { nat_abs ratio.num ≤ most_sum }
    ensures { result ≡ excess f.now (ratio_of ratio) counts.now }
{
    ratio.den * sum_with(f, counts) - ratio.num * rows_with(f, counts)
}

/// What is there before adds to that.
pub(crate) fn over_before(f: &Fractional, ratio: Frac) -> i128
    requires fractional { IsFractional f.now }
    requires positive { pos 0 ≤ℤ ratio.den }
    requires small_den { ratio.den ≤ℤ pos most_rows }
    requires small_num { nat_abs ratio.num ≤ most_sum }
    ensures value { result ≡ over_before f.now (ratio_of ratio) }
    ensures small { nat_abs result ≤ 402_000_000 * most_sum }
{
    ratio.den * f.sum - ratio.num * i128::from(f.count)
}
