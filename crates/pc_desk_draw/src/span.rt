ghost use Rattle.std.specs.Prelude.{◌≡◌, ◌≤◌, IfSome, unsigned_abs};
ghost use Rattle.std.specs.Int.{int_max, int_min};
ghost use Rattle.pc_desk_draw.specs.Numbers.{greatest, hull, ordered, point};

/// Two numbers in millionths, of which the low one is not above the high one.
#[derive(Clone, Copy)]
pub(crate) struct Span {
    pub low: i128,
    pub high: i128,
}

pub(crate) fn ordered(low: Option<i128>, high: Option<i128>) -> Option<Span>
    ensures { result ≡ ordered low high }
{
    let low = low?;
    let high = high?;
    if high < low {
        return None;
    }
    Some(Span { low, high })
}

/// One number alone.
pub(crate) fn point(number: Option<i128>) -> Option<Span>
    ensures { result ≡ point number }
{
    let number = number?;
    Some(Span {
        low: number,
        high: number,
    })
}

/// The least that holds both.
pub(crate) fn hull(one: Option<Span>, other: Option<Span>) -> Option<Span>
    ensures { result ≡ hull one other }
{
    match (one, other) {
        (Some(one), Some(other)) => Some(Span {
            low: lesser(one.low, other.low),
            high: greater(one.high, other.high),
        }),
        (Some(one), None) => Some(one),
        (None, other) => other,
    }
}

/// The lesser of two numbers.
pub(crate) fn lesser(one: i128, other: i128) -> i128
    ensures { result ≡ int_min one other }
{
    one.min(other)
}

/// The greater of two numbers.
pub(crate) fn greater(one: i128, other: i128) -> i128
    ensures { result ≡ int_max one other }
{
    one.max(other)
}
