ghost use Rattle.std.specs.Prelude.{◌≡◌, ◌≤◌, nat_abs, pos, ◌≤ℤ◌, ◌-ℤ◌, ◌*ℤ◌, IfOk};
ghost use Rattle.pc_num.specs.Scaled.{greatest_size};
ghost use Rattle.pc_program_bound.specs.Allocation.{IsProgram};
ghost use Rattle.pc_branch.specs.Ends.{HasSmallGains};
ghost use Rattle.pc_branch.specs.Outcome.{IsEasyProgram};
ghost use Rattle.pc_proof.specs.Table.{ratio_of};
ghost use Rattle.pc_avg_ratio.specs.Fractional.{gains_over, program_at, most_rows, most_sum, IsFractional};

use crate::fractional::Fractional;
use pc_list::Seq;
use pc_num::{Frac, Memory};
use pc_program_bound::Program;
use std::alloc::Global;

/// The program of what rows add above a ratio, times its denominator.
pub(crate) fn program_at(alloc: Global, f: &Fractional, ratio: Frac) -> Result<Program, Memory>
    requires fractional { IsFractional f.now }
    requires positive { pos 0 ≤ℤ ratio.den }
    requires small_den { ratio.den ≤ℤ pos most_rows }
    requires small_num { nat_abs ratio.num ≤ most_sum }
    ensures program { IfOk result (λ p. p ≡ program_at f.now (ratio_of ratio)) }
    ensures is_program { IfOk result IsProgram }
    ensures small { IfOk result HasSmallGains }
    ensures nested { IsEasyProgram f.now.rows → IfOk result IsEasyProgram }
{
    let gain = gains_over(alloc, f, ratio)?;
    let mut program = f.rows.clone()?;
    program.gain = gain;
    Ok(program)
}

#[tactic(auto, using(pc_simplex_tableau::proofs::Tables::table_steps))]
fn gains_over(alloc: Global, f: &Fractional, ratio: Frac) -> Result<Seq<i128>, Memory>
    requires fractional { IsFractional f.now }
    requires positive { pos 0 ≤ℤ ratio.den }
    requires small_den { ratio.den ≤ℤ pos most_rows }
    requires small_num { nat_abs ratio.num ≤ most_sum }
    ensures { IfOk result (λ gains. gains ≡ gains_over f.now (ratio_of ratio)) }
{
    let numbers = f.sums.gain.as_slice();
    let rows = f.rows.gain.as_slice();
    let mut gains = Seq::new(alloc);
    for cell in 0..numbers.len() {
        gains.push(gain_over(ratio, numbers[cell], rows[cell]))?;
    }
    Ok(gains)
}

/// What a row adds, where it counts once or not at all.
fn gain_over(ratio: Frac, number: i128, row: i128) -> i128
    requires positive { pos 0 ≤ℤ ratio.den }
    requires small_den { ratio.den ≤ℤ pos most_rows }
    requires small_num { nat_abs ratio.num ≤ most_sum }
    requires small_number { nat_abs number ≤ greatest_size }
    requires one { nat_abs row ≤ 1 }
    ensures { result ≡ (ratio.den *ℤ number) -ℤ (ratio.num *ℤ row) }
{
    ratio.den * number - ratio.num * row
}
