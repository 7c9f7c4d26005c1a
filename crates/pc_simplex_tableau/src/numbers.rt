ghost use Rattle.std.specs.Prelude.{◌≡◌, ◌-ℤ◌, ◌*ℤ◌, length, All, IsTrue, IfSome, SomeIff};
ghost use Rattle.pc_program_bound.specs.Bound.{IsFit};
ghost use Rattle.pc_simplex_tableau.specs.Numbers.{combined, does_combined_fit, primitive};

use pc_num::{fit_mul, fit_sub};

/// `p` times the one number minus `t` times the other, or none where a product or the difference does not fit.
fn mixed(p: i128, a: i128, t: i128, b: i128) -> Option<i128>
    ensures { SomeIff result (IsFit (p *ℤ a) × IsFit (t *ℤ b) × IsFit (p *ℤ a -ℤ t *ℤ b)) (p *ℤ a -ℤ t *ℤ b) }
{
    let own = fit_mul(p, a)?;
    let others = fit_mul(t, b)?;
    fit_sub(own, others)
}

/// `p` times the row minus `t` times the other. It answers false where a product or a difference does not fit, and the
/// row is then of no more use.
pub(crate) fn combine(row: &mut [i128], p: i128, t: i128, other: &[i128]) -> bool
    requires row_fits { All IsFit row.old }
    requires other_fits { All IsFit other.now }
    requires p_fits { IsFit p }
    requires t_fits { IsFit t }
    requires sized { length row.old ≡ length other.now }
    ensures value { result ≡ does_combined_fit p row.old t other.now }
    ensures combined { IsTrue result → row.new ≡ combined p row.old t other.now }
    ensures fits { IsTrue result → All IsFit row.new }
{
    for place in 0..row.len() {
        match mixed(p, row[place], t, other[place]) {
            Some(number) => row[place] = number,
            None => return false,
        }
    }
    true
}

/// Divides a row by the greatest common divisor of its numbers, and leaves a row of zeros as it is.
pub fn make_primitive(row: &mut [i128])
    requires { All IsFit row.old }
    ensures primitive { row.new ≡ primitive row.old }
    ensures fits { All IsFit row.new }
{
    pc_num::primitive(row);
}
