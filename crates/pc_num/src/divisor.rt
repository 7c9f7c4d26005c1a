ghost use Rattle.std.specs.Prelude.{◌≡◌, ◌<◌, ◌^◌, ◌*ℤ◌, ◌<ℤ◌, ◌≤ℤ◌, ℕ, ℤ, pos, unsigned_abs, int_div, map, All};
ghost use Rattle.std.specs.Int.{IsGcd};
ghost use Rattle.pc_num.specs.Divisor.{IsRowGcd};
ghost use Rattle.pc_num.specs.Signs.{Fits};

/// The greatest common divisor. It is at least 0, and that of 0 and 0 is 0.
pub fn gcd(a: i128, b: i128) -> i128
    requires a_fits { Fits a }
    requires b_fits { Fits b }
    ensures common { IsGcd (unsigned_abs a) (unsigned_abs b) (unsigned_abs result) }
    ensures sign { pos 0 ≤ℤ result }
    ensures fits { Fits result }
{
    common_divisor(a.unsigned_abs(), b.unsigned_abs()) as i128
}

/// Divides a row by the greatest common divisor of its entries, and leaves a row of zeros as it is.
pub fn primitive(row: &mut [i128])
    requires { All Fits row.old }
    ensures divided { (g : ℕ) × IsRowGcd row.old g × (map (λ x. x *ℤ pos g) row.new ≡ row.old) }
    ensures zeros { All (λ x. x ≡ pos 0) row.old → row.new ≡ row.old }
{
    let divisor = row_divisor(row);
    if divisor > 0 {
        divide(row, divisor);
    }
}

/// The greatest common divisor of a row. It is at least 0, and that of a row of zeros is 0.
pub fn row_divisor(row: &[i128]) -> i128
    requires { All Fits row.now }
    ensures common { IsRowGcd row.now (unsigned_abs result) }
    ensures sign { pos 0 ≤ℤ result }
    ensures fits { Fits result }
{
    let mut divisor: i128 = 0;
    for entry in row {
        divisor = gcd(divisor, *entry);
        // No number that follows makes it less.
        if divisor == 1 {
            return 1;
        }
    }
    divisor
}

/// Divides each number of a row.
pub fn divide(row: &mut [i128], divisor: i128)
    requires { pos 0 <ℤ divisor }
    ensures { row.new ≡ map (λ x. int_div x divisor) row.old }
{
    if divisor == 1 {
        return;
    }
    for entry in row.iter_mut() {
        *entry /= divisor;
    }
}

// The greatest common divisor of two sizes.
pub(crate) fn common_divisor(a: u128, b: u128) -> u128
    ensures { IsGcd a b result }
{
    let mut divisor = a;
    let mut rest = b;
    while rest != 0 {
        let next = divisor % rest;
        divisor = rest;
        rest = next;
    }
    divisor
}
