use pc_num::{fit_add, fit_mul, fit_sub};

const MAX: i128 = i128::MAX;

static CASES: [(i128, i128, Option<i128>, Option<i128>, Option<i128>); 6] = [
    (3, -4, Some(-1), Some(7), Some(-12)),
    (0, MAX, Some(MAX), Some(-MAX), Some(0)),
    (-MAX, 1, Some(1 - MAX), None, Some(-MAX)),
    (-MAX, -1, None, Some(1 - MAX), Some(MAX)),
    (1 << 126, 1 << 126, None, Some(0), None),
    (
        1 << 126,
        -2,
        Some((1 << 126) - 2),
        Some((1 << 126) + 2),
        None,
    ),
];

#[test]
fn sums_differences_and_products(rt: HostRuntime) {
    for (a, b, sum, difference, product) in CASES.iter() {
        assert_eq!(rt; fit_add(*a, *b), *sum);
        assert_eq!(rt; fit_sub(*a, *b), *difference);
        assert_eq!(rt; fit_mul(*a, *b), *product);
    }
}
