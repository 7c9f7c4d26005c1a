ghost use Rattle.std.specs.Prelude.{◌≡◌, ◌*◌, ◌<◌, pos, ◌*ℤ◌, ◌<ℤ◌};
ghost use Rattle.std.specs.Ordering.{int_cmp, nat_cmp};
ghost use Rattle.pc_num.specs.Signs.{Fits};

use std::cmp::Ordering;

/// Compares `a / b` with `c / d` by whole parts and remainders: a product of these numbers might not fit.
pub fn compare_fractions(a: i128, b: i128, c: i128, d: i128) -> Ordering
    requires b_above { pos 0 <ℤ b }
    requires d_above { pos 0 <ℤ d }
    requires a_fits { Fits a }
    requires b_fits { Fits b }
    requires c_fits { Fits c }
    requires d_fits { Fits d }
    ensures { result ≡ int_cmp (a *ℤ d) (c *ℤ b) }
{
    let (top, bottom) = (a.unsigned_abs(), b.unsigned_abs());
    let (other_top, other_bottom) = (c.unsigned_abs(), d.unsigned_abs());
    match (a < 0, c < 0) {
        (false, false) => compare_sizes(top, bottom, other_top, other_bottom),
        (false, true) => Ordering::Greater,
        (true, false) => Ordering::Less,
        (true, true) => compare_sizes(other_top, other_bottom, top, bottom),
    }
}

// Compares a / b with c / d.
fn compare_sizes(mut a: u128, mut b: u128, mut c: u128, mut d: u128) -> Ordering
    requires b_above { 0 < b }
    requires d_above { 0 < d }
    ensures { result ≡ nat_cmp (a * d) (c * b) }
{
    loop {
        let whole = a / b;
        let others = c / d;
        if whole != others {
            return whole.cmp(&others);
        }
        let rest = a % b;
        let rest_of_others = c % d;
        if rest == 0 || rest_of_others == 0 {
            return rest.cmp(&rest_of_others);
        }
        // The rests are below 1, and compare as their inverses do in the other order.
        a = d;
        c = b;
        b = rest_of_others;
        d = rest;
    }
}
