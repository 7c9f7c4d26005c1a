ghost use Rattle.std.specs.Prelude.{◌≡◌, pos, ◌<ℤ◌};
ghost use Rattle.pc_desk_parts.specs.Stands.{is_at, is_stand, stand_to};

use pc_num::Frac;

/// Where a number stands to another.
#[derive(Clone, Copy, Debug, PartialEq, Eq)]
pub enum Stand {
    Below,
    At,
    Above,
}

/// Where a number stands to a fraction.
pub(crate) fn stand_to(value: Frac, number: i64) -> Stand
    requires { pos 0 <ℤ value.den }
    ensures { result ≡ stand_to value number }
{
    let number = i128::from(number);
    // A product of the number and the denominator might not fit.
    let whole = value.num.div_euclid(value.den);
    if number < whole {
        return Stand::Below;
    }
    if whole < number {
        return Stand::Above;
    }
    if value.num.rem_euclid(value.den) == 0 {
        return Stand::At;
    }
    Stand::Below
}

pub(crate) fn is_at(stand: Stand) -> bool
    ensures { result ≡ is_at stand }
{
    match stand {
        Stand::Below => false,
        Stand::At => true,
        Stand::Above => false,
    }
}

pub(crate) fn is_stand(stand: Stand, other: Stand) -> bool
    ensures { result ≡ is_stand stand other }
{
    match (stand, other) {
        (Stand::Below, Stand::Below) => true,
        (Stand::At, Stand::At) => true,
        (Stand::Above, Stand::Above) => true,
        _ => false,
    }
}
