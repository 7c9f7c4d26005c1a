ghost use Rattle.std.specs.Prelude.{◌+ℤ◌, ◌-ℤ◌, ◌*ℤ◌, ◌↔◌, All, IsTrue, SomeIff};
ghost use Rattle.pc_num.specs.Signs.{Fits};

/// The sum, or `None` where it does not fit.
pub fn fit_add(a: i128, b: i128) -> Option<i128>
    ensures { SomeIff result (Fits (a +ℤ b)) (a +ℤ b) }
{
    match a.checked_add(b) {
        Some(sum) if sum != i128::MIN => Some(sum),
        _ => None,
    }
}

/// The difference, or `None` where it does not fit.
pub fn fit_sub(a: i128, b: i128) -> Option<i128>
    ensures { SomeIff result (Fits (a -ℤ b)) (a -ℤ b) }
{
    match a.checked_sub(b) {
        Some(rest) if rest != i128::MIN => Some(rest),
        _ => None,
    }
}

/// The product, or `None` where it does not fit.
pub fn fit_mul(a: i128, b: i128) -> Option<i128>
    ensures { SomeIff result (Fits (a *ℤ b)) (a *ℤ b) }
{
    match a.checked_mul(b) {
        Some(product) if product != i128::MIN => Some(product),
        _ => None,
    }
}

/// Whether all numbers fit.
pub fn are_fit(numbers: &[i128]) -> bool
    ensures { IsTrue result ↔ All Fits numbers.now }
{
    for number in numbers {
        if !is_fit(*number) {
            return false;
        }
    }
    true
}

fn is_fit(number: i128) -> bool
    ensures { IsTrue result ↔ Fits number }
{
    number > i128::MIN
}
