ghost use Rattle.pc_num.specs.Fractions.{IsFrac};

use pc_num::Frac;
use std::cmp::Ordering;
use std::process::Abort;

const MAX: i128 = i128::MAX;

fn frac(num: i128, den: i128) -> Frac {
    Frac { num, den }
}

// The fraction of a table's entry, whose numbers fit.
fn made(rt: &impl Abort, entry: (i128, i128)) -> Frac
    ensures { IsFrac result }
{
    assert!(rt; entry.1 != 0);
    Frac::new(entry.0, entry.1).expect(rt, "the fraction fits")
}

#[test]
fn lowest_terms(rt: HostRuntime) {
    let cases: [(i128, i128, Option<Frac>); 16] = [
        (6, 4, Some(frac(3, 2))),
        (-6, 4, Some(frac(-3, 2))),
        (6, -4, Some(frac(-3, 2))),
        (-6, -4, Some(frac(3, 2))),
        (0, 7, Some(frac(0, 1))),
        (0, -7, Some(frac(0, 1))),
        (5, 1, Some(frac(5, 1))),
        (5, 10, Some(frac(1, 2))),
        (MAX, 1, Some(frac(MAX, 1))),
        (-MAX, MAX, Some(frac(-1, 1))),
        (1, -MAX, Some(frac(-1, MAX))),
        (i128::MIN, 1, None),
        (1, i128::MIN, None),
        (i128::MIN, 2, Some(frac(-(1 << 126), 1))),
        (6, i128::MIN, Some(frac(-3, 1 << 126))),
        (i128::MIN, i128::MIN, Some(frac(1, 1))),
    ];
    for (n, d, expected) in cases {
        assert!(rt; d != 0);
        assert_eq!(rt; Frac::new(n, d), expected);
    }
}

static ORDER: [((i128, i128), (i128, i128), Ordering); 14] = [
    ((1, 2), (1, 2), Ordering::Equal),
    ((0, 1), (0, 1), Ordering::Equal),
    ((1, 3), (1, 2), Ordering::Less),
    ((5, 7), (2, 3), Ordering::Greater),
    ((7, 2), (10, 3), Ordering::Greater),
    ((-1, 3), (-1, 2), Ordering::Greater),
    ((-7, 2), (-10, 3), Ordering::Less),
    ((-1, 2), (1, 3), Ordering::Less),
    ((1, 3), (-1, 2), Ordering::Greater),
    ((0, 1), (-1, MAX), Ordering::Greater),
    ((0, 1), (1, MAX), Ordering::Less),
    ((MAX, MAX - 1), (MAX - 1, MAX - 2), Ordering::Less),
    ((MAX - 1, MAX), (MAX - 2, MAX - 1), Ordering::Greater),
    ((-MAX, MAX - 1), (1 - MAX, MAX - 2), Ordering::Greater),
];

#[test]
fn order(rt: HostRuntime) {
    for (own, others, expected) in ORDER.iter() {
        assert!(rt; made(&rt, *own).cmp(&made(&rt, *others)) == *expected);
    }
}

#[test]
fn sums(rt: HostRuntime) {
    let cases: [((i128, i128), (i128, i128), Option<Frac>, Option<Frac>); 8] = [
        ((1, 2), (1, 3), Some(frac(5, 6)), Some(frac(1, 6))),
        ((1, 6), (1, 10), Some(frac(4, 15)), Some(frac(1, 15))),
        ((-1, 2), (1, 2), Some(frac(0, 1)), Some(frac(-1, 1))),
        ((MAX, 1), (1, 1), None, Some(frac(MAX - 1, 1))),
        ((-MAX, 1), (1, 1), Some(frac(1 - MAX, 1)), None),
        ((MAX, 1), (1, 2), None, None),
        ((1, MAX), (1, MAX), Some(frac(2, MAX)), Some(frac(0, 1))),
        ((1, MAX), (1, MAX - 1), None, None),
    ];
    for (own, others, sum, difference) in cases {
        assert_eq!(rt; made(&rt, own).add(&made(&rt, others)), sum);
        assert_eq!(rt; made(&rt, own).sub(&made(&rt, others)), difference);
    }
}

#[test]
fn products(rt: HostRuntime) {
    let cases: [((i128, i128), (i128, i128), Option<Frac>); 8] = [
        ((2, 3), (3, 4), Some(frac(1, 2))),
        ((-2, 3), (3, 4), Some(frac(-1, 2))),
        ((-2, 3), (-5, 7), Some(frac(10, 21))),
        ((0, 1), (-5, 7), Some(frac(0, 1))),
        ((MAX, 2), (2, MAX), Some(frac(1, 1))),
        ((MAX, 1), (-1, 1), Some(frac(-MAX, 1))),
        ((1 << 126, 1), (-2, 1), None),
        ((1, MAX), (1, 2), None),
    ];
    for (own, others, expected) in cases {
        assert_eq!(rt; made(&rt, own).mul(&made(&rt, others)), expected);
    }
}

static WHOLE: [((i128, i128), i128, i128); 8] = [
    ((7, 2), 3, 4),
    ((-7, 2), -4, -3),
    ((6, 1), 6, 6),
    ((-6, 1), -6, -6),
    ((0, 1), 0, 0),
    ((-1, MAX), -1, 0),
    ((1, MAX), 0, 1),
    ((-MAX, 1), -MAX, -MAX),
];

#[test]
fn whole_numbers(rt: HostRuntime) {
    for (entry, floor, ceil) in WHOLE.iter() {
        assert_eq!(rt; made(&rt, *entry).floor(), *floor);
        assert_eq!(rt; made(&rt, *entry).ceil(), *ceil);
    }
}
