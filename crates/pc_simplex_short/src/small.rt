ghost use Rattle.std.specs.Prelude.{◌*◌, ◌↔◌, ◌≤◌, ◌^◌, nat_abs, All, IsTrue};
ghost use Rattle.pc_simplex_short.specs.Kept.{IsWithin};

/// Whether a number of a row is small.
pub(crate) fn is_small(number: i128) -> bool
    ensures { IsTrue result ↔ IsWithin 50 number }
{
    number.unsigned_abs() <= 1 << 50
}

/// Whether the numbers of an objective row are small, and its weight times the greatest gain.
pub(crate) fn is_small_aim(aim: &[i128], weight: i128, top: u128) -> bool
    ensures aim { IsTrue result → All (IsWithin 64) aim.now }
    ensures weight { IsTrue result → nat_abs weight * top ≤ 2 ^ 69 }
    ensures given { All (IsWithin 64) aim.now → nat_abs weight * top ≤ 2 ^ 69 → IsTrue result }
{
    if !is_small_weight(weight, top) {
        return false;
    }
    for number in aim {
        if number.unsigned_abs() > 1 << 64 {
            return false;
        }
    }
    true
}

fn is_small_weight(weight: i128, top: u128) -> bool
    ensures { IsTrue result ↔ nat_abs weight * top ≤ 2 ^ 69 }
{
    match weight.unsigned_abs().checked_mul(top) {
        Some(product) => product <= 1 << 69,
        None => false,
    }
}
