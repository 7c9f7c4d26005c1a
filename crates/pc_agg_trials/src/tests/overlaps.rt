//! Constraints that speak of the same rows, with budgets and ranges by hand; none where no list is possible.
use super::Texts;
use super::ranges::{SALES, SHOP};

const PAIRS: &str = "k,cat,ab,bc,ac\n";

const EACH_ONCE_AT_MOST: &str =
    "A: k in {ab, ac} => true, 0..1\nB: k in {ab, bc} => true, 0..1\nC: k in {bc, ac} => true, 0..1\n";

// Twice the number of rows would be 3.
const EACH_ONCE: &str =
    "A: k in {ab, ac} => true, 1..1\nB: k in {ab, bc} => true, 1..1\nC: k in {bc, ac} => true, 1..1\n";

const BOTH_KEPT: &str =
    "c1: branch = Chicago => price in 0.00..149.99, 0..5\nc2: true => price in 0.00..100.00, 0..3\n";

const MONTH: &str =
    "b1: branch = Chicago => price in 5.00..150.00, 10..40\nb2: branch = NewYork => price in 5.00..200.00, 0..30\nb3: branch = Trenton => price in 5.00..90.00, 0..20\nh1: branch = Chicago and price >= 100.00 => true, 0..5\nh2: branch = NewYork and price >= 100.00 => true, 2..8\nd1: day in 1..10 => true, 0..30\nd2: day in 11..20 => true, 0..30\nd3: day >= 21 => true, 0..25\nt: true => true, 0..80\n";

/// Two triangles of pairs, of which each allows one row.
pub(super) const TRIANGLES: Texts<'static> = (
    "k,cat,ab,bc,ac,de,ef,df\n",
    "k\n",
    "A: k in {ab, ac} => true, 0..1\nB: k in {ab, bc} => true, 0..1\nC: k in {bc, ac} => true, 0..1\nD: k in {de, df} => true, 0..1\nE: k in {de, ef} => true, 0..1\nF: k in {ef, df} => true, 0..1\n",
    "count",
);

pub(super) static OVERLAPS: [(Texts<'static>, u32, Option<(i128, i128)>); 8] = [
    (
        (SHOP, SALES, BOTH_KEPT, "sum(price)"),
        10_000,
        Some((15_000, 45_000)),
    ),
    (
        (PAIRS, "k\n", EACH_ONCE_AT_MOST, "count"),
        10_000,
        Some((0, 1)),
    ),
    ((PAIRS, "k\n", EACH_ONCE, "count"), 10_000, None),
    // With one node the most rows are at most 1 and the fewest at least 2.
    ((PAIRS, "k\n", EACH_ONCE, "count"), 1, None),
    (TRIANGLES, 10_000, Some((0, 2))),
    // No row of the month is left here: 12 to 80 are lost.
    ((SHOP, SALES, MONTH, "count"), 10_000, Some((14, 82))),
    (
        (SHOP, SALES, MONTH, "sum(price)"),
        10_000,
        Some((40_000, 909_943)),
    ),
    (
        (
            SHOP,
            SALES,
            "a: true => true, 3..5\nb: branch = Chicago => true, 0..1\nc: branch = NewYork => true, 0..1\nd: branch = Trenton => true, 0..0\n",
            "count",
        ),
        10_000,
        None,
    ),
];
