ghost use Rattle.std.specs.Prelude.{◌≡◌, ◌<ℤ◌, ◌*ℤ◌, pos, IfSome};
ghost use Rattle.std.specs.Int.{int_div_euclid};
ghost use Rattle.pc_program_bound.specs.Bound.{IsFit};

/// A number in 64 bits; none where it is wider.
pub(crate) fn word(number: i128) -> Option<i64>
    ensures { IfSome result (λ word. word ≡ number) }
{
    i64::try_from(number).ok()
}

pub(crate) fn product(a: i64, b: i64) -> i128
    ensures value { result ≡ a *ℤ b }
    ensures fits { IsFit result }
{
    i128::from(a) * i128::from(b)
}

/// So many times a number, by the product of two numbers of 64 bits where it is no wider.
pub(crate) fn times(number: i128, factor: i64) -> i128
    requires { IsFit (number *ℤ factor) }
    ensures { result ≡ number *ℤ factor }
{
    match word(number) {
        Some(number) => product(number, factor),
        None => number * i128::from(factor),
    }
}

/// The quotient of two numbers of 64 bits; none where one of them is wider.
pub(crate) fn short_quotient(number: i128, divisor: i128) -> Option<i128>
    requires { pos 0 <ℤ divisor }
    ensures value { IfSome result (λ quotient. quotient ≡ int_div_euclid number divisor) }
    ensures fits { IfSome result IsFit }
{
    let own = word(number)?;
    let by = word(divisor)?;
    Some(word_quotient(own, by))
}

fn word_quotient(number: i64, divisor: i64) -> i128
    requires { pos 0 <ℤ divisor }
    ensures value { result ≡ int_div_euclid number divisor }
    ensures fits { IsFit result }
{
    i128::from(number.div_euclid(divisor))
}
