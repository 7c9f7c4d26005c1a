ghost use Rattle.std.specs.Prelude.{◌≡◌, ◌<◌, ◌≤◌, pos, ◌-ℤ◌, ◌*ℤ◌, length, cond, SomeIff};
ghost use Rattle.pc_model.specs.Places.{has_bit};
ghost use Rattle.pc_program_bound.specs.Sums.{sum_below};
ghost use Rattle.pc_program_bound.specs.Allocation.{IsProgram, cells_of, constraints_of};
ghost use Rattle.pc_program_bound.specs.Bound.{IsFit, AreFit, IsFitRest, rest_of};
ghost use Rattle.pc_program_bound.specs.Parts.{taken};

use crate::Program;
use pc_model::{Mult, has_bit};
use pc_num::{fit_add, fit_mul, fit_sub};

/// What is left of a cell's gain once its constraints took their multipliers, or none where a number on the way does
/// not fit.
pub fn rest(p: &Program, mult: &Mult, cell: usize) -> Option<i128>
    requires program { IsProgram p.now }
    requires sized { length mult.now.by ≡ constraints_of p.now }
    requires there { cell < cells_of p.now }
    ensures { SomeIff result (IsFitRest p.now mult.now cell) (rest_of p.now mult.now cell) }
{
    let masks = p.masks.as_slice();
    let gains = p.gain.as_slice();
    rest_from(mult.den, gains[cell], masks[cell], mult.by.as_slice())
}

fn rest_from(den: i128, gain: i128, mask: u32, by: &[i128]) -> Option<i128>
    requires { length by.now ≤ 20 }
    ensures { SomeIff result (IsFit (den *ℤ gain) × AreFit (λ k. sum_below k (taken mask by.now)) (length by.now) × IsFit (den *ℤ gain -ℤ sum_below (length by.now) (taken mask by.now))) (den *ℤ gain -ℤ sum_below (length by.now) (taken mask by.now)) }
{
    let scaled = fit_mul(den, gain)?;
    let given = given(mask, by)?;
    fit_sub(scaled, given)
}

/// What the constraints of a mask take together, or none where a running sum does not fit.
fn given(mask: u32, by: &[i128]) -> Option<i128>
    requires { length by.now ≤ 20 }
    ensures { SomeIff result (AreFit (λ k. sum_below k (taken mask by.now)) (length by.now)) (sum_below (length by.now) (taken mask by.now)) }
{
    let mut given = 0;
    for (place, number) in by.iter().enumerate() {
        given = fit_add(given, part(mask, place, *number))?;
    }
    Some(given)
}

fn part(mask: u32, place: usize, number: i128) -> i128
    requires { place < 32 }
    ensures { result ≡ cond (has_bit mask place) number (pos 0) }
{
    if has_bit(u128::from(mask), place) {
        number
    } else {
        0
    }
}
