//! Constraints that share no row, with ranges by hand.
use super::Texts;
use super::judging::Range;

pub(super) const SHOP: &str =
    "branch,cat,Chicago,NewYork,Trenton\nday,int,1,31\nprice,dec,2,0.00,1000.00\n";

pub(super) const SALES: &str = "branch,day,price\nChicago,3,100.00\nNewYork,5,50.00\n";

pub(super) const NO_SALES: &str = "branch,day,price\n";

pub(super) const CHEAP: &str = "c1: branch = Chicago => price in 0.00..149.99, 0..5\n";

pub(super) const TWO_CHEAP: &str = "c1: branch = Chicago => price in 0.00..149.99, 2..5\n";

pub(super) const NEVER_KEPT: &str = "c: price >= 500.00 => price in 0.00..100.00, 1..2\n";

pub(super) const LARGE: &str = "v,int,1000000000000000,1000000000000000\n";

pub(super) const MOST_LARGE: &str = "c: true => true, 10000000..10000000\n";

pub(super) const KINDS: &str = "n,int,-9,9\nk,cat,a,b\n";

pub(super) const BOTH_KINDS: &str = "n,k\n4,a\n-3,b\n";

pub(super) const APART: &str = "p: k = a => n in -5..2, 1..3\nq: k = b => n in 3..6, 0..2\n";

pub(super) const APART_BELOW: &str = "p: k = a => n in -5..-2, 1..3\nq: k = b => n in 3..6, 0..2\n";

// Texts, a budget of nodes, and the range, in units of the last place of the column.
pub(super) static RANGES: [(Texts<'static>, u32, Range); 14] = [
    (
        (SHOP, SALES, CHEAP, "sum(price)"),
        1,
        Some((15_000, 89_995)),
    ),
    ((SHOP, NO_SALES, CHEAP, "sum(price)"), 1, Some((0, 74_995))),
    (
        (SHOP, SALES, TWO_CHEAP, "sum(price) where branch = NewYork"),
        1,
        Some((5_000, 5_000)),
    ),
    (
        (
            SHOP,
            SALES,
            "c: price >= 500.00 => price in 0.00..100.00, 0..2\n",
            "count",
        ),
        1,
        Some((2, 2)),
    ),
    (
        (LARGE, "v\n", MOST_LARGE, "sum(v)"),
        1,
        Some((
            10_000_000_000_000_000_000_000,
            10_000_000_000_000_000_000_000,
        )),
    ),
    ((SHOP, SALES, TWO_CHEAP, "count"), 1, Some((4, 7))),
    (
        (SHOP, SALES, TWO_CHEAP, "count where branch = NewYork"),
        1,
        Some((1, 1)),
    ),
    // The lost rows can be of any day.
    (
        (SHOP, SALES, TWO_CHEAP, "count where day <= 10"),
        1,
        Some((2, 7)),
    ),
    ((SHOP, SALES, "", "count"), 1, Some((2, 2))),
    ((KINDS, BOTH_KINDS, APART, "sum(n)"), 1, Some((-14, 19))),
    (
        (KINDS, BOTH_KINDS, APART, "sum(n) where k = a"),
        1,
        Some((-11, 10)),
    ),
    // At least one row of `a` is lost, and each of them is below 0.
    (
        (KINDS, BOTH_KINDS, APART_BELOW, "sum(n)"),
        1,
        Some((-14, 11)),
    ),
    (
        (KINDS, BOTH_KINDS, APART_BELOW, "sum(n) where k = a"),
        1,
        Some((-11, 2)),
    ),
    (
        (KINDS, BOTH_KINDS, APART, "count where n > 0"),
        1,
        Some((1, 6)),
    ),
];

// Texts under which no lost rows meet the constraints.
pub(super) static IMPOSSIBLE: [(Texts<'static>, u32, Range); 3] = [
    ((SHOP, SALES, NEVER_KEPT, "count"), 1, None),
    ((SHOP, SALES, NEVER_KEPT, "sum(price)"), 1, None),
    (
        (
            KINDS,
            "n,k\n",
            "p: k = a => n in 1..2, 1..1\nq: k = b and n > 5 => n in 0..1, 1..1\n",
            "count",
        ),
        1,
        None,
    ),
];
